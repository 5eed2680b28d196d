// Records from standard input, each read to its end and no further.
ghost use Rattle.std.specs.Prelude.{◌+◌, ◌≤◌, length};
ghost use Rattle.walk.specs.Reading.{PartRead, RecordRead, QueryRead};

use records::door::program_door;
use walk_text::input::named;

// The bytes of a length field.
const FIELD: usize = 2;

// Reads n bytes to a place of the buffer, or as many as the input still has.
fn read_part(buf: &mut [u8], from: usize, n: usize) -> usize
    requires { from + n ≤ length buf.old }
    ensures { PartRead from n buf.old result buf.new }
{
    io::read_full(0, &mut buf[from..from + n])
}

// Reads a record to the start of the buffer and gives how many bytes were read of it.
pub fn read_record(buf: &mut [u8]) -> usize
    requires { 32768 ≤ length buf.old }
    ensures { RecordRead buf.new result }
{
    let field = read_part(buf, 0, FIELD);
    let n = named(&buf[..field]);
    let rest = read_part(buf, FIELD, n);
    field + rest
}

// Reads the query's record. Where the program is refused nothing more is read.
pub fn read_query(program: &[u8], buf: &mut [u8]) -> usize
    requires { 32768 ≤ length buf.old }
    ensures { QueryRead program.now buf.old result buf.new }
{
    match program_door(program) {
        Ok(()) => read_record(buf),
        Err(_) => 0,
    }
}
