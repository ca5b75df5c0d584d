// Lists the header of a model file: reads up to 64 KiB of it from standard input and writes its
// listing to standard output.
//
// The text is `listing::list`'s, whose contract fixes each byte. The buffer holds the longest one:
// 64 KiB of names, at most 160 other bytes for each of 1024 rows, and the first line.
#![tactic(auto)]

use rows::{ENTRY_WORDS, TENSOR_WORDS};

// The listing of a prefix, on standard output.
fn print_listing(rt: &HostRuntime, prefix: &[u8]) {
    let entry = [0u64; ENTRY_WORDS];
    let mut entries = [entry; 512];
    let tensor = [0u64; TENSOR_WORDS];
    let mut tensors = [tensor; 512];
    let mut text = [0u8; 262144];
    let n = listing::list(&mut text, prefix, &mut entries, &mut tensors);
    if rt.stdout().write_all(&text[0..n]).is_err() {
        let _ = rt
            .stderr()
            .write_all(b"gguf_list: the listing can't be written\n");
    }
    if n == 262144 {
        let _ = rt
            .stderr()
            .write_all(b"gguf_list: the listing may be cut\n");
    }
}

fn main(rt: HostRuntime) {
    let mut prefix = [0u8; 65536];
    let (n, _) = bytes_in::read_full(&mut rt.stdin(), &mut prefix);
    print_listing(&rt, &prefix[..n]);
}
