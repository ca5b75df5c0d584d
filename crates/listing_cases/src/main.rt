// Lists each file that an argument names, after a line with its name: stored cases of the listing
// and the text that the format's rules give for them.
//
// The files in data/ and the text in `stdout` are made from the same contents by data/make.py, so
// that neither is any reader's answer (data/README.md). Each refusal that a listing can give is
// there. 5 and 12 can't be given, since the ceilings are the whole format's, nor can 18, which no
// prefix reaches.
#![tactic(auto)]

use rows::{ENTRY_WORDS, TENSOR_WORDS};

// The listing of a prefix.
fn print_listing(rt: &HostRuntime, prefix: &[u8]) {
    let entry = [0u64; ENTRY_WORDS];
    let mut entries = [entry; 512];
    let tensor = [0u64; TENSOR_WORDS];
    let mut tensors = [tensor; 512];
    let mut text = [0u8; 262144];
    let n = listing::list(&mut text, prefix, &mut entries, &mut tensors);
    let _ = rt.stdout().write_all(&text[0..n]);
}

// The listing of a file, after its name.
fn print_case(rt: &HostRuntime, path: &[u8]) {
    let _ = rt.stdout().write_all(b"== ");
    let _ = rt.stdout().write_all(path);
    let _ = rt.stdout().write_all(b"\n");
    let mut prefix = [0u8; 65536];
    if let Some(n) = bytes_in::read_file(rt, &rt.stderr(), path, &mut prefix) {
        print_listing(rt, &prefix[..n]);
    }
}

// The listing of the file that the argument i names, and whether there is such an argument.
fn print_argument(rt: &HostRuntime, i: usize) -> bool {
    let mut path = [0u8; 4096];
    match bytes_in::argument(rt, i, &mut path) {
        Some(n) => {
            print_case(rt, &path[..n]);
            true
        }
        None => false,
    }
}

fn main(rt: HostRuntime) {
    for i in 1..usize::MAX {
        if !print_argument(&rt, i) {
            break;
        }
    }
}
