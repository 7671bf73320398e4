// The first bytes of a payload and the kinds of a variable. What is right is said in the crate `env`, in
// `specs/Variable.antt`.
#![tactic(auto)]

ghost use Rattle.std.specs.Prelude.{◌≡◌};
ghost use Rattle.env.specs.Variable.{is_first, is_kind};

use env::{INFO, IS, USERVAR_KIND, VAR_KIND};

// Whether a byte begins a payload: IS or INFO.
#[tactic(auto, unfolding(env::specs::Variable::is_first))]
pub fn is_first(b: u8) -> bool
    ensures { result ≡ is_first b }
{
    b == IS || b == INFO
}

// Whether a number is the kind of a variable: VAR or USERVAR.
#[tactic(auto, unfolding(env::specs::Variable::is_kind))]
pub fn is_kind(kind: usize) -> bool
    ensures { result ≡ is_kind kind }
{
    kind == VAR_KIND || kind == USERVAR_KIND
}
