//! The line that ends a reply.
ghost use Rattle.std.specs.Prelude.{◌≡◌, ◌<◌, ◌==◌, ◌+◌, not, drop, length, get_or};
ghost use Rattle.std.specs.List.{prefix_len};
ghost use Rattle.abc_make.specs.Summary.{reply_line, line_from, behind_number};

/// The last line of a reply as far as the byte at this place tells: what stands behind it where it is an LF and not the last byte, else
/// `line`.
fn line_at<'a>(reply: &'a [u8], line: &'a [u8], place: usize) -> &'a [u8]
    requires { place < length reply.now }
    ensures { result.now ≡ line_from (get_or reply.entry.now place 0) (drop (place + 1) reply.entry.now) line.entry.now }
{
    let behind = &reply[place + 1..];
    if reply[place] == b'\n' && !behind.is_empty() {
        behind
    } else {
        line
    }
}

/// The line that ends a reply, with its LF.
pub(crate) fn last_line<'a>(reply: &'a [u8]) -> &'a [u8]
    ensures { result.now ≡ reply_line reply.entry.now }
{
    let mut line = reply;
    let mut place = 0;
    'bytes: while place < reply.len() {
        line = line_at(reply, line, place);
        place += 1;
    }
    line
}

/// How many bytes stand in front of the first space.
fn bytes_before_space(line: &[u8]) -> usize
    ensures { result ≡ prefix_len (λ b. not (b == 32)) line.now }
{
    line.iter().take_while(|b| **b != b' ').count()
}

/// What stands behind the number of a reply line.
pub(crate) fn answer_in<'a>(line: &'a [u8]) -> &'a [u8]
    ensures { result.now ≡ behind_number line.entry.now }
{
    let number = bytes_before_space(line);
    if number < line.len() {
        &line[number + 1..]
    } else {
        &[]
    }
}
