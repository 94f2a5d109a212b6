// The program `seal` as a function from the bytes of its input to the bytes of its output.
#![tactic(auto)]

ghost use Rattle.std.specs.Prelude.{◌≡◌, true, ◌+◌, ◌*◌, ◌≤◌, ◌<◌, length, take, drop};
ghost use Rattle.std.proofs.lemmas.List.Edits.{sets};
ghost use Rattle.scope.specs.Machine.{refusal_number};
ghost use Rattle.command.specs.Hex;
ghost use Rattle.command.specs.Lines.{first_line, well_formed, lines_in};
ghost use Rattle.command.specs.Output;
ghost use Rattle.command.specs.Output.{answer_to, printed, output};
ghost use Rattle.command.specs.Machine.{between, said, line_of, lines_of, Ordered, answer_of, Within, Prints};

use scope::Refusal;

// Bytes that the longest line says, and bytes of the longest input and the longest output.
const MOST_BYTES: usize = 4096;

pub const MOST_INPUT: usize = 32772;

pub const MOST_OUTPUT: usize = 8238;

// What a hex digit says, `None` for a byte that is none.
fn digit(b: u8) -> Option<u8>
    ensures { result ≡ said (Hex.digit b) }
{
    match b {
        b'0'..=b'9' => Some(b - b'0'),
        b'a'..=b'f' => Some(10 + (b - b'a')),
        _ => None,
    }
}

// Where the first line of an input ends, if it is well formed: the place of its byte 0a.
fn first(input: &[u8]) -> Option<usize>
    ensures { line_of input.now 0 result ≡ first_line input.now }
{
    let n = input.iter().position(|&b| digit(b).is_none())?;
    if input[n] != b'\n' || n % 2 != 0 || n > scope::MOST_DIGITS {
        return None;
    }
    Some(n)
}

// Where the line ends that starts at a place of an input.
fn line_from(input: &[u8], at: usize) -> Option<usize>
    requires { at ≤ length input.now }
    ensures { line_of input.now at result ≡ first_line (drop at input.now) }
{
    Some(at + first(&input[at..])?)
}

// Where each of the four lines ends.
#[derive(Clone, Copy)]
pub struct Places {
    pub key: usize,
    pub iv: usize,
    pub ad: usize,
    pub text: usize,
}

// The four lines of an input, and nothing after.
fn four(input: &[u8]) -> Option<Places>
    ensures lines { lines_of input.now result ≡ lines_in input.now }
    ensures order { Ordered input.now result }
{
    let key = line_from(input, 0)?;
    let iv = line_from(input, key + 1)?;
    let ad = line_from(input, iv + 1)?;
    let text = line_from(input, ad + 1)?;
    if text + 1 != input.len() {
        return None;
    }
    Some(Places { key, iv, ad, text })
}

// The bytes that a well-formed line says, at the front of the output, and how many.
fn decode(line: &[u8], out: &mut [u8]) -> usize
    requires formed { well_formed line.now ≡ true }
    requires fits { length line.now ≤ 2 * length out.old }
    ensures out { out.new ≡ sets out.old 0 (Hex.bytes_of line.now) }
    ensures count { result ≡ length (Hex.bytes_of line.now) }
{
    let n = line.len() / 2;
    for i in 0..n {
        out[i] = digit(line[2 * i]).unwrap() * 16 + digit(line[2 * i + 1]).unwrap();
    }
    n
}

// The digit that says a number. `char::from_digit` gives an `Option` of a character, which is no plainer.
fn glyph(v: u8) -> u8
    requires { v < 16 }
    ensures { result ≡ Hex.glyph v }
{
    if v < 10 { b'0' + v } else { b'a' + (v - 10) }
}

// The digits that say bytes, written at a place of the output, and the place behind them.
fn encode(bytes: &[u8], out: &mut [u8], at: usize) -> usize
    requires { at + 2 * length bytes.now ≤ length out.old }
    ensures out { out.new ≡ sets out.old at (Hex.hex_of bytes.now) }
    ensures next { result ≡ at + length (Hex.hex_of bytes.now) }
{
    for i in 0..bytes.len() {
        let b = bytes[i];
        out[at + 2 * i] = glyph(b / 16);
        out[at + 2 * i + 1] = glyph(b % 16);
    }
    at + 2 * bytes.len()
}

// A text, written at a place of the output, and the place behind it.
fn put(text: &[u8], out: &mut [u8], at: usize) -> usize
    requires { at + length text.now ≤ length out.old }
    ensures out { out.new ≡ sets out.old at text.now }
    ensures next { result ≡ at + length text.now }
{
    let end = at + text.len();
    out[at..end].copy_from_slice(text);
    end
}

// The bytes that the line between two places of an input says, at the front of the output, and how many.
fn line_bytes(input: &[u8], from: usize, to: usize, out: &mut [u8; MOST_BYTES]) -> usize
    requires { (from ≤ to) × (to ≤ length input.now) × (well_formed (between from to input.now) ≡ true) }
    ensures bytes { take result out.new ≡ Hex.bytes_of (between from to input.now) }
    ensures count { (result ≤ length out.new) × (result ≡ length (take result out.new)) }
{
    decode(&input[from..to], out)
}

// How many bytes of ciphertext there are, and their tag.
#[derive(Clone, Copy)]
pub struct Sealed {
    pub count: usize,
    pub tag: [u8; 16],
}

// Seals what four lines say; the ciphertext goes to the front of the output.
fn seal_lines(input: &[u8], p: Places, cipher: &mut [u8; MOST_BYTES]) -> Result<Sealed, Refusal>
    requires { (lines_of input.now (Some p) ≡ lines_in input.now) × Ordered input.now (Some p) }
    ensures answer { answer_of cipher.new result ≡ answer_to (lines_in input.now) }
    ensures within { Within cipher.new result }
{
    let mut key = [0u8; MOST_BYTES];
    let k = line_bytes(input, 0, p.key, &mut key);
    let mut iv = [0u8; MOST_BYTES];
    let v = line_bytes(input, p.key + 1, p.iv, &mut iv);
    let mut ad = [0u8; MOST_BYTES];
    let d = line_bytes(input, p.iv + 1, p.ad, &mut ad);
    let mut text = [0u8; MOST_BYTES];
    let t = line_bytes(input, p.ad + 1, p.text, &mut text);
    let tag = page::seal(&key[..k], &iv[..v], &ad[..d], &text[..t], cipher)?;
    Ok(Sealed { count: t, tag })
}

// Prints a refusal, whose number has at most two digits (any number is taken, and a format's contract says nothing of its bytes), at the front of the output, and how many bytes that is.
pub fn refusal(number: u64, out: &mut [u8; MOST_OUTPUT]) -> usize
    ensures { Prints (printed (Output.Answer.refused number)) out.old out.new result }
{
    let at = put(b"refused ", out, 0);
    let ones = b'0' + (number % 10) as u8;
    if number < 10 {
        return put(&[ones, b'\n'], out, at);
    }
    let tens = b'0' + (number / 10 % 10) as u8;
    put(&[tens, ones, b'\n'], out, at)
}

// Prints a ciphertext and its tag at the front of the output, and how many bytes that is.
fn two_lines(cipher: &[u8], tag: &[u8], out: &mut [u8; MOST_OUTPUT]) -> usize
    requires { (length cipher.now ≤ 4096) × (length tag.now ≡ 16) }
    ensures { Prints (printed (Output.Answer.sealed cipher.now tag.now)) out.old out.new result }
{
    let a = put(b"cipher=", out, 0);
    let b = encode(cipher, out, a);
    let c = put(b"\nauth=", out, b);
    let d = encode(tag, out, c);
    put(b"\n", out, d)
}

// What the program prints on an input, at the front of the output, and how many bytes that is. Every input has an answer: 11 where it is not
// four well-formed lines, else that of a seal.
pub fn answer(input: &[u8], out: &mut [u8; MOST_OUTPUT]) -> usize
    ensures { Prints (output input.now) out.old out.new result }
{
    let Some(places) = four(input) else {
        return refusal(Refusal::Malformed.number(), out);
    };
    let mut cipher = [0u8; MOST_BYTES];
    let sealed = seal_lines(input, places, &mut cipher);
    let Ok(s) = sealed else {
        return refusal(sealed.unwrap_err().number(), out);
    };
    two_lines(&cipher[..s.count], &s.tag, out)
}
