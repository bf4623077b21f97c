// The program's arguments, which name its files.
use std::env::FillError;
use std::rt::Env;

// How many the program was started with, its own name among them.
pub fn count(rt: &impl Env) -> usize {
    let mut none = [0u8; 0];
    for i in 0..usize::MAX {
        if let Err(FillError::NotPresent) = rt.arg(i, &mut none) {
            return i;
        }
    }
    usize::MAX
}
