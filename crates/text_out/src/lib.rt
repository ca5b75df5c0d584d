// Texts, numbers in decimal and words with a number, put at the front of an output.
//
// Every writer here puts its text at the front of what it is lent, as much of it as there is room
// for, and answers how many bytes that is. So none asks for room, and one that answers less than
// the room has put all of its text.
#![tactic(auto)]

ghost use Rattle.std.specs.Prelude.{◌≡◌, ◌≤◌, length, drop};
ghost use Rattle.text_out.specs.Put.{Put};
ghost use Rattle.text_out.specs.Words as words;

// A text.
pub fn put_text(out: &mut [u8], src: &[u8]) -> usize
    ensures { Put src.now out.old out.new result }
{
    let n = src.len().min(out.len());
    fields::copy_bytes(out, &src[..n])
}

// The digits of a number, at the end of the twenty places. Answers where they begin.
fn spell(places: &mut [u8], n: u64) -> usize
    requires { length places.old ≡ 20 }
    ensures upper_bound { result ≤ 20 }
    ensures places_after { drop result places.new ≡ words.decimal n }
{
    let mut rest = n;
    for at in (0..20).rev() {
        places[at] = b'0' + (rest % 10) as u8;
        if rest < 10 {
            return at;
        }
        rest /= 10;
    }
    // Not reached: a number of 64 bits has no more digits.
    0
}

// A number in decimal.
pub fn put_decimal(out: &mut [u8], n: u64) -> usize
    ensures { Put (words.decimal n) out.old out.new result }
{
    let mut places = [0u8; 20];
    let at = spell(&mut places, n);
    put_text(out, &places[at..])
}

// A word and a number.
pub fn put_labelled(out: &mut [u8], word: &[u8], n: u64) -> usize
    ensures { Put (words.labelled word.now n) out.old out.new result }
{
    let a = put_text(out, word);
    a + put_decimal(&mut out[a..], n)
}

// A word and a number at the end of a line.
pub fn put_line_end(out: &mut [u8], word: &[u8], n: u64) -> usize
    ensures { Put (words.line_end word.now n) out.old out.new result }
{
    let a = put_labelled(out, word, n);
    a + put_text(&mut out[a..], b"\n")
}
