// Tells when each tensor of a model file was complete. Arguments: the file, or its front; a trace
// of fetches; the file's length in bytes. Writes a first line to standard output, and one for each
// tensor, with its name and the record after which all its bytes had been delivered.
//
// The text is `fetch_listing::list_fetches`'s, whose contract fixes each byte. Up to 64 KiB of the
// file are looked at, and the buffer holds the longest text of them: all bytes as names, 22 more
// for each of 512 rows, and the first line. No well-formed trace is as long as the buffer for one.
#![tactic(auto)]

ghost use Rattle.std.specs.Prelude.{length, ◌≡◌, ◌≤◌, IfSome};

use rows::{ENTRY_WORDS, TENSOR_WORDS};

// Zeros for a trace. The `ensures` gives only their count, which lending them as a slice needs.
fn trace_buffer() -> [u8; 4194304]
    ensures { 4194304 ≡ length result }
{
    [0; 4194304]
}

// Something that can't be done, on standard error.
fn complain(rt: &HostRuntime, what: &[u8]) {
    let errors = rt.stderr();
    let _ = errors.write_all(b"gguf_fetches: ");
    let _ = errors.write_all(what);
    let _ = errors.write_all(b"\n");
}

// The lines of the tensors, or of a refusal.
fn print_replay(rt: &HostRuntime, prefix: &[u8], file: u64, trace: &[u8]) {
    let entry = [0u64; ENTRY_WORDS];
    let mut entries = [entry; 512];
    let tensor = [0u64; TENSOR_WORDS];
    let mut tensors = [tensor; 512];
    let mut answers = [0u64; 512];
    let mut text = [0u8; 131072];
    let n = fetch_listing::list_fetches(
        &mut text,
        prefix,
        file,
        trace,
        &mut entries,
        &mut tensors,
        &mut answers,
    );
    if rt.stdout().write_all(&text[0..n]).is_err() {
        complain(rt, b"the lines can't be written");
    }
}

// The front of the file that the argument i names, and how many bytes that is; or none where it
// can't be opened, and then the reason is told.
fn read_argument(rt: &HostRuntime, i: usize, out: &mut [u8]) -> Option<usize>
    ensures { IfSome result (λ n. n ≤ length out.new) }
{
    let mut path = [0u8; 4096];
    let n = bytes_in::argument(rt, i, &mut path).unwrap_or(0);
    bytes_in::read_file(rt, &rt.stderr(), &path[..n], out)
}

// The replay of the trace that the second argument names.
fn print_with_trace(rt: &HostRuntime, prefix: &[u8], file: u64) {
    let mut trace = trace_buffer();
    let Some(n) = read_argument(rt, 2, &mut trace) else {
        return;
    };
    if n == 4194304 {
        complain(rt, b"the trace has 4 MiB or more");
        return;
    }
    print_replay(rt, prefix, file, &trace[..n]);
}

// The replay over the file that the first argument names.
fn print_with_file(rt: &HostRuntime, file: u64) {
    let mut prefix = [0u8; 65536];
    if let Some(n) = read_argument(rt, 1, &mut prefix) {
        print_with_trace(rt, &prefix[..n], file);
    }
}

// Whether the program was started with exactly three arguments.
fn has_three_arguments(rt: &HostRuntime) -> bool {
    let mut text = [0u8; 0];
    bytes_in::argument(rt, 3, &mut text).is_some() && bytes_in::argument(rt, 4, &mut text).is_none()
}

fn main(rt: HostRuntime) {
    if !has_three_arguments(&rt) {
        complain(&rt, b"three arguments, please: FILE TRACE LENGTH");
        return;
    }
    let mut text = [0u8; 4096];
    let n = bytes_in::argument(&rt, 3, &mut text).unwrap_or(0);
    match text_in::number_in(&text[..n]) {
        Some(length) => print_with_file(&rt, length),
        None => complain(&rt, b"LENGTH is a number of bytes"),
    }
}
