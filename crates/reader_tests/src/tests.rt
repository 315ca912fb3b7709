// Sources in tables, each in a constant, since a table within a test makes its proof slow. What is wanted comes from
// C11 and the rules of the profile.

mod kinds;
mod limits;
mod parsing;
mod plain;
mod refusals;
mod shown;
mod spelling;
mod values;

use cl_base::limits::SOURCE_BYTES;
use cl_read::read::read_source;
use cl_read::stop::ReadStop;
use cl_tree::tree::Program;
use std::alloc::Global;

fn read(alloc: Global, source: &str) -> Result<Program, ReadStop> {
    let bytes = source.as_bytes();
    if bytes.len() > SOURCE_BYTES {
        return Err(ReadStop::NoMemory);
    }
    read_source(alloc, bytes)
}
