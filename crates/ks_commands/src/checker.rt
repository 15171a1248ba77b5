ghost use Rattle.std.specs.Prelude.{◌≡◌, ◌+◌, ◌<◌, ◌≤◌, ◌↔◌, [], None, Some, Err, IsTrue, length, OnOk};
ghost use Rattle.ks_base.specs.declared.limits.TheConstants.{CHECK_LINES, CHECK_LINE_BYTES};
ghost use Rattle.ks_commands.specs.declared.checker.TheConstants.{PIECE};
ghost use Rattle.ks_commands.specs.Lines.{IsInLine};

use crate::answer::answer;
use crate::fault::Fault;
use crate::lines::{first_line, token_line};
use ks_base::Boxed;
use ks_base::limits::{CHECK_LINE_BYTES, CHECK_LINES};
use ks_fernet::{KeyText, OpeningKey, read_key};
use ks_machine::moment;
use ks_outside::{Failed, Sink, Source, write_all};
use std::alloc::{AllocError, Global};

/// How many bytes are read at once, and how many answers are kept before they are written.
pub const PIECE: usize = 65_536;

/// Where a check stands: before the line behind those that it has read.
#[derive(Drop)]
pub struct CheckPlace {
    /// How many lines were read.
    pub lines: u64,
    /// The key of line 1, behind it, taken in for all lines. It stands behind a pointer, since each line hands it on.
    pub key: Option<Boxed<OpeningKey>>,
    /// The highest reading of the clock so far.
    pub moment: u64,
}

/// A check of the tokens of an input that comes in pieces.
#[derive(Drop)]
pub struct Checker {
    place: CheckPlace,
    /// The line that has begun in earlier pieces.
    line: Vec<u8>,
    /// The answers that are still to be written.
    answers: Vec<u8>,
    ghost counted: { place.lines ≤ CHECK_LINES },
    ghost begun: { IsInLine line.items },
    ghost short: { length line.items ≤ CHECK_LINE_BYTES },
}

impl CheckPlace {
    ghost use Rattle.ks_commands.specs.Check.{step_of, keyed_step};
    ghost use Rattle.ks_commands.specs.steps.Progress.{Takes};

    /// Before the first line.
    const START: CheckPlace = CheckPlace {
        lines: 0,
        key: None,
        moment: 0,
    };

    fn bad_line(&self) -> Fault
        requires { self.now.lines ≤ CHECK_LINES }
        ensures { result ≡ Fault.BadLine (self.now.lines + 1) }
    {
        Fault::BadLine(self.lines + 1)
    }

    /// Answers the next line: puts what it writes behind the answers, and goes on behind it. After a
    /// fault the answers are as they were.
    #[tactic(auto, unfolding(crate::specs::Check::step_of))]
    fn take_line(&mut self, alloc: Global, line: &[u8], answers: &mut Vec<u8>) -> Result<(), Fault>
        requires { self.old.lines ≤ CHECK_LINES }
        ensures takes { Takes (step_of self.old line.now) self.old.lines answers.old.items self.new answers.new.items result }
        ensures counted { self.new.lines ≤ CHECK_LINES }
        ensures forward { OnOk result (self.new.lines ≡ self.old.lines + 1) }
        ensures short { OnOk result (length line.now ≤ CHECK_LINE_BYTES) }
    {
        if line.len() > CHECK_LINE_BYTES || self.lines >= CHECK_LINES {
            return Err(self.bad_line());
        }
        match self.key.take() {
            None => self.take_key(alloc, line),
            Some(key) => self.take_token(alloc, key, line, answers),
        }
    }

    fn take_key(&mut self, alloc: Global, line: &[u8]) -> Result<(), Fault>
        requires { self.old.lines < CHECK_LINES }
        ensures takes { Takes (keyed_step self.old None line.now) self.old.lines [] self.new [] result }
        ensures counted { self.new.lines ≤ CHECK_LINES }
        ensures forward { OnOk result (self.new.lines ≡ self.old.lines + 1) }
    {
        let KeyText::Key(key) = read_key(line) else {
            return Err(self.bad_line());
        };
        let Ok(key) = Boxed::new(alloc, OpeningKey::of(&key)) else {
            return Err(Fault::Memory);
        };
        self.lines += 1;
        self.key = Some(key);
        Ok(())
    }

    fn take_token(
        &mut self,
        alloc: Global,
        key: Boxed<OpeningKey>,
        line: &[u8],
        answers: &mut Vec<u8>,
    ) -> Result<(), Fault>
        requires { self.old.lines < CHECK_LINES }
        ensures takes { Takes (keyed_step self.old (Some key) line.now) self.old.lines answers.old.items self.new answers.new.items result }
        ensures counted { self.new.lines ≤ CHECK_LINES }
        ensures forward { OnOk result (self.new.lines ≡ self.old.lines + 1) }
    {
        let Some(parts) = token_line(line) else {
            return Err(self.bad_line());
        };
        let now = moment(self.moment, parts.reading);
        if answer(alloc, key.get(), now, parts.token, answers).is_err() {
            return Err(Fault::Memory);
        }
        self.lines += 1;
        self.key = Some(key);
        self.moment = now;
        Ok(())
    }
}

impl Checker {
    ghost use Rattle.std.specs.Prelude.{◌≡◌, ◌≢◌, ◌+◌, ◌<◌, ◌≤◌, ◌++◌, ◌⊎◌, ℕ, List, [], Option, IfOk, IfErr, OnOk, length, IsErr, IsErrOf, Some, Err};
    ghost use Rattle.ks_outside.specs.Streams.{OnlyReads, OnlyWrites};
    ghost use Rattle.ks_commands.specs.Lines.{IsInLine};
    ghost use Rattle.ks_commands.specs.Check.{Checked};
    ghost use Rattle.ks_commands.specs.steps.Progress.{IsAtStart, EndsLine, HasLines, Holds, WritesOut, Stands, Moves, Flushes, Finishes, ReadsAll, bytes_read};
    ghost use Rattle.ks_commands.specs.Ending.{EndsCheck, IsStreamFault};

    /// Before the first byte.
    pub fn new(alloc: Global) -> Result<Checker, AllocError>
        ensures { IfOk result IsAtStart }
    {
        Ok(Checker {
            place: CheckPlace::START,
            line: Vec::with_capacity(alloc, CHECK_LINE_BYTES)?,
            answers: Vec::with_capacity(alloc, 2 * PIECE)?,
        })
    }

    /// Keeps the beginning of a line whose line feed is still to come.
    fn hold(&mut self, bytes: &[u8]) -> Result<(), Fault>
        requires { IsInLine bytes.now }
        ensures causes { IfErr result IsStreamFault }
        ensures reads { result ≢ Err Fault.Read }
        ensures writes { result ≢ Err Fault.Write }
        ensures holds { Holds bytes.now self.old self.new result }
        ensures bytes { OnOk result (bytes_read self.new ≡ bytes_read self.old + length bytes.now) }
        ensures inside { IsInLine (self.old.line.items ++ bytes.now) }
    {
        if bytes.len() > CHECK_LINE_BYTES - self.line.len() {
            return Err(self.place.bad_line());
        }
        if self.line.extend_from_slice(bytes).is_err() {
            return Err(Fault::Memory);
        }
        Ok(())
    }

    /// Answers the line that ends with these bytes.
    fn end_line(&mut self, alloc: Global, last: &[u8]) -> Result<(), Fault>
        requires { IsInLine last.now }
        ensures causes { IfErr result IsStreamFault }
        ensures reads { result ≢ Err Fault.Read }
        ensures writes { result ≢ Err Fault.Write }
        ensures ends { EndsLine last.now self.old self.new result }
        ensures forward { OnOk result (self.new.place.lines ≡ self.old.place.lines + 1) }
        ensures bytes { OnOk result (bytes_read self.old + length last.now + 1 ≤ bytes_read self.new) }
        ensures inside { IsInLine (self.old.line.items ++ last.now) }
    {
        if self.line.is_empty() {
            return self.place.take_line(alloc, last, &mut self.answers);
        }
        self.hold(last)?;
        self.place
            .take_line(alloc, self.line.as_slice(), &mut self.answers)?;
        self.line.clear();
        Ok(())
    }

    /// Writes the answers in hand.
    fn write_out<K: Sink>(&mut self, output: &mut K) -> Result<(), Failed>
        ensures told { (before : List ℕ) → (K.stream output.old).written ≡ Some before → WritesOut self.old result self.new (K.stream output.new).written before }
        ensures place { self.new.place ≡ self.old.place }
        ensures line { self.new.line.items ≡ self.old.line.items }
        ensures bytes { bytes_read self.new ≡ bytes_read self.old }
        ensures writes { OnlyWrites (IsErr result) (K.stream output.old) (K.stream output.new) }
    {
        write_all(output, self.answers.as_slice())?;
        self.answers.clear();
        Ok(())
    }

    /// Writes the answers in hand, where they have become many.
    fn write_many<K: Sink>(&mut self, output: &mut K) -> Result<(), Failed>
        ensures moves { (whole : List ℕ → Checked) (rest before : List ℕ) → Stands whole rest self.old (K.stream output.old).written before → Flushes whole rest result self.new (K.stream output.new).written before }
        ensures place { self.new.place ≡ self.old.place }
        ensures line { self.new.line.items ≡ self.old.line.items }
        ensures bytes { bytes_read self.new ≡ bytes_read self.old }
        ensures writes { OnlyWrites (IsErr result) (K.stream output.old) (K.stream output.new) }
    {
        if self.answers.len() < PIECE {
            return Ok(());
        }
        self.write_out(output)
    }

    /// Answers the lines that end in a piece, keeps the beginning of the line behind them, and writes the
    /// answers.
    fn take_piece<K: Sink>(
        &mut self,
        alloc: Global,
        piece: &[u8],
        output: &mut K,
    ) -> Result<(), Fault>
        ensures causes { IfErr result IsStreamFault }
        ensures reads { result ≢ Err Fault.Read }
        ensures moves { (whole : List ℕ → Checked) (before : List ℕ) → Stands whole piece.now self.old (K.stream output.old).written before → Moves whole [] result self.new (K.stream output.new).written before }
        ensures lines { OnOk result ((read : List ℕ) → HasLines self.old read → HasLines self.new (read ++ piece.now)) }
        ensures bad { (n : ℕ) → result ≡ Err (Fault.BadLine n) → self.old.place.lines < n }
        ensures bytes { OnOk result (bytes_read self.old + length piece.now ≤ bytes_read self.new) }
        ensures writes { OnlyWrites (IsErrOf result Fault.Write) (K.stream output.old) (K.stream output.new) }
    {
        let mut rest = piece;
        'lines: while let Some((line, behind)) = first_line(rest) {
            self.end_line(alloc, line)?;
            let Ok(()) = self.write_many(output) else {
                return Err(Fault::Write);
            };
            rest = behind;
        }
        self.hold(rest)?;
        // Whoever waits for an answer before the next line has it now.
        let Ok(()) = self.write_out(output) else {
            return Err(Fault::Write);
        };
        Ok(())
    }

    /// Answers a last line that lacks its line feed.
    fn finish(&mut self, alloc: Global) -> Result<(), Fault>
        ensures causes { IfErr result IsStreamFault }
        ensures reads { result ≢ Err Fault.Read }
        ensures writes { result ≢ Err Fault.Write }
        ensures bad { (n : ℕ) → result ≡ Err (Fault.BadLine n) → self.old.place.lines < n }
        ensures finishes { (whole : List ℕ → Checked) (before : List ℕ) (written : Option (List ℕ)) → Stands whole [] self.old written before → Finishes whole result self.new written before }
    {
        if !self.line.is_empty() {
            return self.end_line(alloc, &[]);
        }
        if self.place.lines == 0 {
            return Err(Fault::BadLine(1));
        }
        Ok(())
    }

    /// Reads the input to its end, a piece at a time, and answers its lines. The last answers stay in
    /// hand. The lines and their lengths are limited, so an input without end comes to a bad line.
    fn read_all<S: Source, K: Sink>(
        &mut self,
        alloc: Global,
        input: &mut S,
        output: &mut K,
        piece: &mut [u8],
    ) -> Result<(), Fault>
        requires fresh { IsAtStart self.old }
        requires room { 0 < length piece.old }
        requires size { length piece.old ≤ PIECE }
        ensures causes { IfErr result IsStreamFault }
        ensures told { (text before : List ℕ) → (S.stream input.old).left ≡ Some text → (K.stream output.old).written ≡ Some before → ReadsAll text (S.stream input.new).left result self.new (K.stream output.new).written before }
        ensures reads { OnlyReads (IsErrOf result Fault.Read) (S.stream input.old) (S.stream input.new) }
        ensures writes { OnlyWrites (IsErrOf result Fault.Write) (K.stream output.old) (K.stream output.new) }
    {
        'reads: loop {
            let Ok(count) = input.read(piece) else {
                return Err(Fault::Read);
            };
            if count == 0 {
                return self.finish(alloc);
            }
            self.take_piece(alloc, piece.split_at(count).0, output)?;
        }
    }

    /// Writes the last answers, however the reading ended but by a failed write: nothing may follow that,
    /// since what it took is not known.
    fn close<K: Sink>(&mut self, ended: Result<(), Fault>, output: &mut K) -> Result<(), Fault>
        requires { ended ≢ Err Fault.Write }
        ensures told { (text before : List ℕ) (left : Option (List ℕ)) → ReadsAll text left ended self.old (K.stream output.old).written before → EndsCheck text before left (K.stream output.new).written result }
        ensures others { result ≡ Err Fault.Write ⊎ result ≡ ended }
        ensures writes { OnlyWrites (IsErrOf result Fault.Write) (K.stream output.old) (K.stream output.new) }
    {
        let Ok(()) = self.write_out(output) else {
            return Err(Fault::Write);
        };
        ended
    }

    /// Checks the tokens of an input, from its first byte on.
    pub fn check<S: Source, K: Sink>(
        &mut self,
        alloc: Global,
        input: &mut S,
        output: &mut K,
        piece: &mut [u8],
    ) -> Result<(), Fault>
        requires fresh { IsAtStart self.old }
        requires room { 0 < length piece.old }
        requires size { length piece.old ≤ PIECE }
        ensures told { (text before : List ℕ) → (S.stream input.old).left ≡ Some text → (K.stream output.old).written ≡ Some before → EndsCheck text before (S.stream input.new).left (K.stream output.new).written result }
        ensures causes { IfErr result IsStreamFault }
        ensures reads { OnlyReads (IsErrOf result Fault.Read) (S.stream input.old) (S.stream input.new) }
        ensures writes { OnlyWrites (IsErrOf result Fault.Write) (K.stream output.old) (K.stream output.new) }
    {
        let ended = self.read_all(alloc, input, output, piece);
        if failed_to_write(&ended) {
            return Err(Fault::Write);
        }
        self.close(ended, output)
    }
}

fn failed_to_write(ended: &Result<(), Fault>) -> bool
    ensures { IsTrue result ↔ (ended.now ≡ Err Fault.Write) }
{
    matches!(ended, Err(Fault::Write))
}
