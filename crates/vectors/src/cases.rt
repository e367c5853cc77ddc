use hex::FromHexError;
use rdf_terms::Memory;
use std::alloc::Global;

/// The bytes of a field, or none where the piece is no field.
pub fn bytes(alloc: Global, piece: &str) -> Result<Option<Vec<u8>>, Memory> {
    if let Some(plain) = piece.strip_prefix('=') {
        let plain = String::from_str(alloc, plain)?;
        return Ok(Some(plain.into_bytes()));
    }
    let Some(digits) = piece.strip_prefix('x') else {
        return Ok(None);
    };
    match hex::decode(alloc, digits) {
        Ok(bytes) => Ok(Some(bytes)),
        Err(FromHexError::OutOfMemory) => Err(Memory),
        Err(_) => Ok(None),
    }
}

/// The text of a field, or none where the piece is no field or its bytes are no text.
pub fn text(alloc: Global, piece: &str) -> Result<Option<String>, Memory> {
    match bytes(alloc, piece)? {
        Some(bytes) => Ok(String::from_utf8(bytes).ok()),
        None => Ok(None),
    }
}

/// The fields of a case as texts, or none where one is no text.
pub fn texts(alloc: Global, line: &str) -> Result<Option<Vec<String>>, Memory> {
    let mut texts = Vec::new(alloc);
    for piece in line.split(' ') {
        match text(alloc, piece)? {
            Some(text) => texts.push(text)?,
            None => return Ok(None),
        }
    }
    Ok(Some(texts))
}

/// What is said of a line that is no case of its kind.
pub fn no_case(alloc: Global) -> Result<String, Memory> {
    plain(alloc, "no case")
}

/// An answer that is always the same.
pub fn plain(alloc: Global, answer: &str) -> Result<String, Memory> {
    Ok(String::from_str(alloc, answer)?)
}

/// A text as a field: plain, with `=` in front, where all of its characters are printable ASCII;
/// else in hexadecimal, with `x` in front.
pub fn shown(alloc: Global, text: &str) -> Result<String, Memory> {
    if text.bytes().all(|byte| byte.is_ascii_graphic()) {
        return Ok(format!(in alloc; "={text}")?);
    }
    let digits = hex::encode(alloc, text)?;
    Ok(format!(in alloc; "x{digits}")?)
}

/// Appends a part to an answer: behind `between`, where the answer has one already.
pub fn append(
    answer: &mut String,
    between: &str,
    part: Result<String, Memory>,
) -> Result<(), Memory> {
    let part = part?;
    if !answer.is_empty() {
        answer.push_str(between)?;
    }
    answer.push_str(part.as_str())?;
    Ok(())
}
