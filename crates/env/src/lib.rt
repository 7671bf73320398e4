// Environment variables. This crate has what is right, and no function: start with `specs/Variable.antt`,
// `specs/Fields.antt`, `specs/Read.antt` and `specs/Write.antt`. The code is in `env_codes`, `env_records`,
// `env_search`, `env_text`, `env_delivery`, `env_variables`, `env_reader`, `env_writer` and `env_list`.

// The codes of a payload (RFC 1572): its first byte, the kinds of a variable, VALUE before a value, and ESC before a
// byte from VAR to USERVAR in a name or a value.
#![tactic(auto)]

pub const IS: u8 = 0;

pub const INFO: u8 = 2;

pub const VAR: u8 = 0;

pub const VALUE: u8 = 1;

pub const ESC: u8 = 2;

pub const USERVAR: u8 = 3;

// A variable record: VAR or USERVAR, where its name and its value are in a buffer, and the mark of its value.
#[derive(Clone, Copy)]
pub struct VariableRecord {
    pub kind: usize,
    pub name_at: usize,
    pub name_length: usize,
    pub value_at: usize,
    pub value_length: usize,
    pub mark: usize,
}

// The kind of a record.
pub const VAR_KIND: usize = VAR as usize;

pub const USERVAR_KIND: usize = USERVAR as usize;

// The mark of a record: whether its variable is defined. Any mark but DEFINED reads as undefined.
pub const DEFINED: usize = 0;

pub const UNDEFINED: usize = 1;

// The most bytes of a payload, and the most variables.
pub const PAYLOAD_LIMIT: usize = telnet::PAYLOAD_LIMIT;

pub const VARIABLE_LIMIT: usize = 64;

// How many numbers a record takes in a list of numbers, and the most that a payload's records take.
pub const RECORD_WIDTH: usize = 6;

pub const LIST_LIMIT: usize = RECORD_WIDTH * VARIABLE_LIMIT;
