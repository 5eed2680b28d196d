// Rules and queries as text.
ghost use Rattle.reader.specs.Form.Service.{clauses_text_reply, query_text_reply, ReadReplied};

use reader::query::read_query;
use reader::read::read;
use records::questions::outcome_number;

// A text of clauses to its clause record and its names, each after its two-byte length. The length of that list is left in `named`.
#[unsafe(no_mangle)]
pub extern "C" fn fourport_read(
    text: &[u8],
    names: &mut [u8],
    out: &mut [u8],
    named: &mut usize,
) -> u32
    ensures { ReadReplied (clauses_text_reply text.now names.old out.old) result named.new names.new out.new }
{
    let told = read(text, names, out);
    *named = told.unwrap_or(0);
    u32::from(outcome_number(&told))
}

// A query, read behind a text of clauses, to its query record and the names of both.
#[unsafe(no_mangle)]
pub extern "C" fn fourport_read_query(
    text: &[u8],
    query: &[u8],
    names: &mut [u8],
    out: &mut [u8],
    named: &mut usize,
) -> u32
    ensures { ReadReplied (query_text_reply text.now query.now names.old out.old) result named.new names.new out.new }
{
    let told = read_query(text, query, names, out);
    *named = told.unwrap_or(0);
    u32::from(outcome_number(&told))
}
