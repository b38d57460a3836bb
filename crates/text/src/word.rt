// A word of a line. Its bytes are a part of that line: of a known name the value after the '=', else the whole word.
#[derive(Clone, Copy, Debug, PartialEq, Eq)]
pub enum Word<'a> {
    Call(&'a [u8]),
    Session(&'a [u8]),
    Mode(&'a [u8]),
    Key(&'a [u8]),
    Row(&'a [u8]),
    Other(&'a [u8]),
}
