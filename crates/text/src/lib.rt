// The text of a name. Ports what `hw_name()` and its like in src/command.rs use of core: the check
// of UTF-8 of core::str, and CStr::from_bytes_until_nul. Document 01, "Reply fields", says what
// text a name has, and the Unicode Standard's table 3-7 what is well-formed.
#![tactic(auto)]

ghost use Rattle.std.specs.Prelude.{◌≡◌, ◌<◌, map, drop, MatchOption};
ghost use Rattle.text.specs.Utf8.{table, range_of, stands, front_length, well_formed};
ghost use Rattle.text.specs.Text.{has_text, text_of, FoundText};

// Unicode's table 3-7, a row a line, in its order: for each byte of the sequence the first and the
// last of its range. Written out, and not left to std's `str::from_utf8`: it is the table of specs/Utf8.antt, and the must-fail
// edits change its rows.
const TABLE: [&[(u8, u8)]; 9] = [
    &[(0x00, 0x7F)],
    &[(0xC2, 0xDF), (0x80, 0xBF)],
    &[(0xE0, 0xE0), (0xA0, 0xBF), (0x80, 0xBF)],
    &[(0xE1, 0xEC), (0x80, 0xBF), (0x80, 0xBF)],
    &[(0xED, 0xED), (0x80, 0x9F), (0x80, 0xBF)],
    &[(0xEE, 0xEF), (0x80, 0xBF), (0x80, 0xBF)],
    &[(0xF0, 0xF0), (0x90, 0xBF), (0x80, 0xBF), (0x80, 0xBF)],
    &[(0xF1, 0xF3), (0x80, 0xBF), (0x80, 0xBF), (0x80, 0xBF)],
    &[(0xF4, 0xF4), (0x80, 0x8F), (0x80, 0xBF), (0x80, 0xBF)],
];

// Whether the row's sequence stands at the front of the bytes.
fn stands(row: &[(u8, u8)], bytes: &[u8]) -> bool
    ensures { result ≡ stands (map range_of row.now) bytes.now }
{
    let mut pairs = row.iter().zip(bytes);
    row.len() <= bytes.len() && pairs.all(|(&(first, last), &byte)| first <= byte && byte <= last)
}

// The bytes after the sequence at their front, if one stands there. `rows` are the table's rows.
fn after_sequence<'a>(rows: &[&[(u8, u8)]], bytes: &'a [u8]) -> Option<&'a [u8]>
    requires { map (λ row. map range_of row.now) rows.now ≡ table }
    ensures { MatchOption result (front_length table bytes.now ≡ 0) (λ rest. (0 < front_length table bytes.now) × (rest.now ≡ drop (front_length table bytes.now) bytes.now)) }
{
    let row = rows.iter().find(|row| stands(row, bytes))?;
    Some(&bytes[row.len()..])
}

// Whether the bytes are well-formed UTF-8.
pub fn well_formed(bytes: &[u8]) -> bool
    ensures { result ≡ well_formed bytes.now }
{
    // A constant array is made anew at each use, so it is lent to the loop once.
    let rows: &[&[(u8, u8)]] = &TABLE;
    // No `for`, because a sequence has one to four bytes.
    let mut left = bytes;
    while !left.is_empty() {
        let Some(rest) = after_sequence(rows, left) else {
            return false;
        };
        left = rest;
    }
    true
}

// How many bytes of a name are its text, if it has one. The Rust's `from_bytes_until_nul` and
// `to_str`, one after the other.
fn text_len(name: &[u8]) -> Option<usize>
    ensures { FoundText name.now result }
{
    let end = names::find_nul(name, 0, name.len()).ok()? - 1;
    well_formed(&name[..end]).then_some(end)
}

// Whether a name has a text: it tells an empty text from none. A call of its own, and `text` no Option, because document 01 asks
// for the part "with its own yes or no for validity".
pub fn has_text(name: &[u8]) -> bool
    ensures { result ≡ has_text name.now }
{
    text_len(name).is_some()
}

// The text of a name: the very bytes, at the front of the caller's.
pub fn text(name: &[u8]) -> &[u8]
    ensures { (result.now ≡ text_of name.now) × (result.ref_ptr ≡ name.entry.ref_ptr) }
{
    &name[..text_len(name).unwrap_or(0)]
}
