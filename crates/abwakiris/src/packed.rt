// An answer in one u64.
ghost use Rattle.std.specs.Prelude.{◌≡◌, ◌<◌, ◌%◌, ◌^◌, ℕ};
ghost use Rattle.answers.specs.Said.{said};
ghost use Rattle.abwakiris.specs.Packed.{file_code, packed_refusal, packed_pair, packed};

use answers::{Counted, File, Moved, Refusal};

// What a call answers has a value of 32 bits.
// No `Into<u64>`: the law `small` keeps a value out of the bits of a refusal, and `From` has no such law.
pub trait Value {
    ghost value: { Self → ℕ };

    fn value(self) -> u64
        ensures value { result ≡ value self }
        ensures small { result < 2 ^ 32 };
}

impl Value for () {
    ghost value = { λ _. 0 };

    fn value(self) -> u64 {
        0
    }
}

impl Value for usize {
    ghost value = { λ n. n % 2 ^ 32 };

    fn value(self) -> u64 {
        self as u64 % 4294967296
    }
}

impl Value for Counted {
    ghost value = { λ a. packed_pair a.count a.live };

    fn value(self) -> u64 {
        pair(self.count, self.live)
    }
}

impl Value for Moved {
    ghost value = { λ m. packed_pair m.first m.second };

    fn value(self) -> u64 {
        pair(self.first, self.second)
    }
}

// Two numbers of 16 bits, the first in the low ones.
fn pair(a: usize, b: usize) -> u64
    ensures value { result ≡ packed_pair a b }
    ensures small { result < 2 ^ 32 }
{
    a as u64 % 65536 + b as u64 % 65536 * 65536
}

// The numbers of the header for C, as `Packed.file_code` has them.
fn file_code(file: File) -> u64
    ensures { (result ≡ file_code file) × (result < 272) }
{
    match file {
        File::NoFile => 0,
        File::Device => 1,
        File::Schedule => 2,
        File::Listing => 3,
        File::Program(job) => 16 + job as u64,
    }
}

pub fn packed_refusal(x: Refusal) -> u64
    ensures { result ≡ packed_refusal x }
{
    x.place as u64 % 4294967296 + x.number as u64 * 4294967296 + file_code(x.file) * 1099511627776
}

// The value of an answer, or its refusal.
pub fn packed<T: Value>(answer: Result<T, Refusal>) -> u64
    ensures { result ≡ packed T.value (said answer) }
{
    match answer {
        Ok(value) => value.value(),
        Err(x) => packed_refusal(x),
    }
}
