//! Paths for page files.
use std::env;
use std::path::PathBuf;
use std::process::Abort;
use std::rt::Env;

/// A path that no other test and no other run uses.
pub(crate) fn scratch<R: Env + Abort + AllocGlobal>(rt: &R, run: u32, test: &str) -> PathBuf {
    let name = format!(in rt.alloc(); "tests_parts-{run}-{test}").expect(rt, "a name");
    let folder = env::temp_dir(rt).expect(rt, "a folder");
    folder.join(rt.alloc(), name.as_str()).expect(rt, "a path")
}
