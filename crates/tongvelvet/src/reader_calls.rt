// The calls of `export_reader`, for a caller in C: each is the function of that name there, with its promise.
ghost use Rattle.std.specs.Prelude.{◌≡◌};
ghost use Rattle.telnet_fragments.specs.Promise.{fresh_reader};
ghost use Rattle.export_reader.specs.Numbers.{reader, reader_numbers};
ghost use Rattle.export_reader.specs.Numbers.{FedByNumbers, ClosedByNumber};

use export_reader::{TvFed, TvReader};
use telnet::PAYLOAD_LIMIT;

// A reader that has read nothing.
#[unsafe(no_mangle)]
pub extern "C" fn tv_reader_fresh() -> TvReader
    ensures { result ≡ reader_numbers fresh_reader }
{
    export_reader::tv_reader_fresh()
}

// A reader begun anew, whatever it was.
#[unsafe(no_mangle)]
pub extern "C" fn tv_reader_reset(reader: TvReader) -> TvReader
    ensures { result ≡ reader_numbers fresh_reader }
{
    export_reader::tv_reader_reset(reader)
}

// Takes a fragment. The number 4 is a refusal, for room under 2,048 bytes; 2, 3 and 6 are none: the data before the
// fault is given, and every later call answers that number and takes nothing.
#[unsafe(no_mangle)]
pub extern "C" fn tv_reader_feed(
    reader: TvReader,
    kept: &mut [u8; PAYLOAD_LIMIT],
    fragment: &[u8],
    room: &mut [u8],
) -> TvFed
    ensures { FedByNumbers reader kept.old fragment.now room.old result kept.new room.new }
{
    export_reader::tv_reader_feed(reader, kept, fragment, room)
}

// The end of the stream: 0 where the reader is at rest, 1 where it waits for more, and the number of its fault.
#[unsafe(no_mangle)]
pub extern "C" fn tv_reader_close(reader: TvReader) -> u8
    ensures { ClosedByNumber reader result }
{
    export_reader::tv_reader_close(reader)
}
