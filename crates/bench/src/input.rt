use crate::fault::Fault;
use std::alloc::Global;
use std::io::Read;

/// The bytes of the input, to its end.
pub(crate) fn bytes<R: Read + Drop>(alloc: Global, input: R) -> Result<Vec<u8>, Fault> {
    let mut input = input;
    let mut bytes = Vec::new(alloc);
    match input.read_to_end(&mut bytes) {
        Ok(_) => Ok(bytes),
        Err(_) => Err(Fault::Input),
    }
}
