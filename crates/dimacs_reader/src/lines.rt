//! The lines of a text that are not comments.

ghost use Rattle.std.specs.Prelude.{◌≡◌, ◌+◌, ◌^◌, ◌<◌, ◌≤◌, [], ◌∷◌, length, IsSome, MatchOption};
ghost use Rattle.road_reader.specs.Lines.{words_of};
ghost use Rattle.dimacs_reader.specs.Told.{is_comment, told_lines};

use road_reader::{Line, Lines, skip_blanks, split_line};

/// Returns the next line that is not a comment.
pub fn next_line<'a>(lines: &mut Lines<'a>) -> Option<Line<'a>>
    requires { lines.old.passed + length lines.old.rest.now < 2 ^ 32 }
    ensures line { MatchOption result
        (told_lines lines.old.passed lines.old.rest.now ≡ [])
        (λ line. told_lines lines.old.passed lines.old.rest.now
        ≡ (line.number, words_of line.octets.now) ∷ told_lines lines.new.passed
        lines.new.rest.now) }
    ensures fits { lines.new.passed + length lines.new.rest.now ≤ lines.old.passed + length
        lines.old.rest.now }
    ensures shorter { IsSome result → length lines.new.rest.now < length lines.old.rest.now }
{
    while !lines.rest.is_empty() {
        let (octets, rest) = split_line(lines.rest);
        lines.rest = rest;
        lines.passed += 1;
        if !is_comment(octets) {
            return Some(Line {
                number: lines.passed,
                octets,
            });
        }
    }
    None
}

/// Tests whether a line is skipped: it has no words, or its first word begins with `c`.
fn is_comment(line: &[u8]) -> bool
    ensures { result ≡ is_comment (words_of line.now) }
{
    let rest = skip_blanks(line);
    rest.is_empty() || rest[0] == b'c'
}
