// A program file that reads: its bytes, its functions, and the place of main's length word.
ghost use Rattle.program.specs.Reading.{Reading, Reading-prop};

use crate::functions::FunctionTable;

#[derive(Clone, Copy)]
pub struct ReadProgram<'a> {
    pub bytes: &'a [u8],
    pub functions: FunctionTable,
    pub main: usize,
    // they read as a program, whose functions and main these are
    ghost reading: { Reading bytes.now functions main } by { Reading-prop bytes.now functions main },
}
