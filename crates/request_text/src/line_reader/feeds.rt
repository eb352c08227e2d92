// The line feeds and carriage returns of lines.
ghost use Rattle.std.specs.Prelude.{◌≡◌, ◌≤◌, length, take, MatchOption};
ghost use Rattle.std.specs.Str.Lines.{strip_carriage_return};
ghost use Rattle.base_text.specs.Parts.{Lacks};
ghost use Rattle.request_text.specs.Feeds.{IsClean, IsFirstFeed};

use memchr::memchr;

// Where the first line feed stands, of which none is among the first `clean` bytes.
pub(crate) fn first_feed(bytes: &[u8], clean: usize) -> Option<usize>
    requires within { clean ≤ length bytes.now }
    requires clean { IsClean bytes.now clean }
    ensures { MatchOption result (Lacks 10 bytes.now) (IsFirstFeed bytes.now) }
{
    let place = memchr(b'\n', &bytes[clean..])?;
    Some(clean + place)
}

// How many bytes a line has without the one carriage return at its end, if it has one.
pub(crate) fn line_length(line: &[u8]) -> usize
    ensures same { take result line.now ≡ strip_carriage_return line.now }
    ensures count { result ≡ length (strip_carriage_return line.now) }
    ensures within { result ≤ length line.now }
{
    match line {
        [front @ .., b'\r'] => front.len(),
        _ => line.len(),
    }
}
