// Reading a script.
use crate::failure::Failure;
use scripts::{Script, ScriptFault};
use std::alloc::Allocator;
use std::fs::File;
use std::rt::Files;
use volume_files::read_file;

/// Returns the script in the file `path`. Fails if the file can't be read, the script is refused, or memory can't be
/// allocated.
pub fn read_script<'a, R, A>(rt: &R, alloc: A, path: &'a str) -> Result<Script<A>, Failure<'a>>
where
    R: Files<File = File> + AllocGlobal,
    A: Allocator + Copy,
{
    let text = read_file(rt, alloc, path)?;
    match Script::read(rt.alloc(), alloc, &text) {
        Ok(script) => Ok(script),
        Err(ScriptFault::Memory(cause)) => Err(Failure::Memory(cause)),
        Err(cause) => Err(Failure::Script { path, cause }),
    }
}
