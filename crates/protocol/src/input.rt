// Lines of standard input, taken from pieces that are read as they come.
ghost use Rattle.std.specs.Prelude.{◌≡◌, cond as pick, not, ◌+◌, is_some, length, set, ltb, unwrap_or};
ghost use Rattle.protocol.specs.Lines.{start_input, is_line, Kept};

use crate::output::Buffer;
use std::io::Read;

// How far the input has been read.
#[derive(Clone, Copy)]
pub struct Input {
    // what is left of the piece at hand
    from: usize,
    to: usize,
    is_over: bool,
}

fn keep(line: &mut [u8], len: usize, c: u8) -> usize
    ensures value { result ≡ pick (ltb len (length line.old)) (len + 1) (length line.old + 1) }
    ensures line_after { line.new ≡ set line.old len c }
{
    if len >= line.len() {
        return line.len() + 1;
    }
    line[len] = c;
    len + 1
}

impl Input {
    pub fn new() -> Input
        ensures { result ≡ start_input }
    {
        Input {
            from: 0,
            to: 0,
            is_over: false,
        }
    }

    // The next character. A piece is what is there now, by one read: it need not fill `piece`. A read that fails ends the
    // input, as one that gives nothing.
    fn next(&mut self, rt: &impl std::io::Input, piece: &mut [u8]) -> Option<u8>
        ensures piece_len_unchanged { length piece.new ≡ length piece.old }
        ensures over { is_some result ≡ not self.new.is_over }
    {
        if self.is_over {
            return None;
        }
        if self.from >= self.to {
            self.from = 0;
            self.to = rt.reader().read(piece).unwrap_or(0);
        }
        if self.from >= self.to || self.from >= piece.len() {
            self.is_over = true;
            return None;
        }
        let c = piece[self.from];
        self.from += 1;
        Some(c)
    }

    // How many characters the next line has, one more than there is room for where it is too long; no line lies behind the
    // last line end. Nothing says that one ends, so the turns are counted up to a number that no run reaches. Nor does the
    // contract of `read` say what it puts into `piece`. So this contract leaves open which characters the line has, how many,
    // and where the input then stands; tests hold that. It says what is so whatever came: `piece` has its length, at most one
    // character more is counted than `line` has room for, none of those kept is a line end, and behind them `line` is as it
    // was.
    pub fn read_line(
        &mut self,
        rt: &impl std::io::Input,
        piece: &mut Buffer,
        line: &mut Buffer,
    ) -> Option<usize>
        ensures is_line { is_some result ≡ is_line self.new.is_over (unwrap_or result 0) }
        ensures kept { Kept line.old line.new (unwrap_or result 0) }
        ensures piece_len_unchanged { length piece.new ≡ length piece.old }
    {
        let mut len = 0;
        for _ in 0..u64::MAX {
            match self.next(rt, piece) {
                Some(b'\n') => return Some(len),
                Some(c) => len = keep(line, len, c),
                None => break,
            }
        }
        if self.is_over && len == 0 {
            None
        } else {
            Some(len)
        }
    }
}
