// A body, that of a function or main: its bytes, which arguments the functions before it end with, and the places that it may name.
use super::endings::Endings;
use sets::LocationSet;

#[derive(Clone, Copy)]
pub struct Body<'a> {
    pub bytes: &'a [u8],
    pub endings: Endings,
    pub inside: LocationSet,
}
