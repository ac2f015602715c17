// The by-value part of the standing state, with methods that hand the next one back, and what a step gives.
ghost use Rattle.std.specs.Prelude.{◌≡◌, ◌≤◌, []};
ghost use Rattle.rules.specs.Marks.{default_marks, mark_text, mark_texts, with_quotes, with_comments};
ghost use Rattle.expander.specs.Tokens.{FullMark, GoodMarks};
ghost use Rattle.expander.specs.Machine.{source_set, marks_set, calls_set, table_set, sinks_set, wrap_set, errors_set, stepped};
ghost use Rattle.expander.specs.declared.machine.Progress.TheVariants as progress;

use crate::calls::Calls;
use crate::marks;
use crate::sinks::Sinks;
use crate::source::Position;
use crate::table::Definitions;
use rules::{Answer, Mark, Marks};

// The marks in force; where the text ahead, the open calls, the definitions and the streams stand; how many bytes wait in the wrap text
// and are written to the error text.
#[derive(Clone, Copy)]
pub(crate) struct Machine {
    pub(crate) marks: Marks,
    pub(crate) source: Position,
    pub(crate) calls: Calls,
    pub(crate) table: Definitions,
    pub(crate) sinks: Sinks,
    pub(crate) wrap: usize,
    pub(crate) errors: usize,
}

// Whether a run goes on after a step, ends with it, or the step is refused.
#[derive(Clone, Copy)]
pub(crate) enum Progress {
    On,
    Ended(Answer),
    Refused(Answer),
}

// What a step gives.
#[derive(Clone, Copy)]
pub(crate) struct Stepped {
    pub(crate) progress: Progress,
    pub(crate) machine: Machine,
}

impl Machine {
    pub(crate) fn with_source(mut self, source: Position) -> Machine
        ensures { result ≡ source_set source self }
    {
        self.source = source;
        self
    }

    // Other quote marks.
    pub(crate) fn with_quotes(mut self, begin: Mark, end: Mark) -> Machine
        ensures { (result ≡ marks_set result.marks self) × (mark_texts result.marks ≡ with_quotes (mark_text begin) (mark_text end) (mark_texts self.marks)) × (GoodMarks self.marks → FullMark begin → FullMark end → GoodMarks result.marks) }
    {
        let begin_comment = self.marks.begin_comment;
        let end_comment = self.marks.end_comment;
        let marks = Marks {
            begin_quote: begin,
            end_quote: end,
            begin_comment,
            end_comment,
        };
        self.marks = marks;
        self
    }

    // Other comment marks.
    pub(crate) fn with_comments(mut self, begin: Mark, end: Mark) -> Machine
        ensures { (result ≡ marks_set result.marks self) × (mark_texts result.marks ≡ with_comments (mark_text begin) (mark_text end) (mark_texts self.marks)) × (GoodMarks self.marks → begin.len ≤ 5 → FullMark end → GoodMarks result.marks) }
    {
        let begin_quote = self.marks.begin_quote;
        let end_quote = self.marks.end_quote;
        let marks = Marks {
            begin_quote,
            end_quote,
            begin_comment: begin,
            end_comment: end,
        };
        self.marks = marks;
        self
    }

    // Comments are turned off.
    pub(crate) fn without_comments(self) -> Machine
        ensures { (result ≡ marks_set result.marks self) × (mark_texts result.marks ≡ with_comments [] (mark_text self.marks.end_comment) (mark_texts self.marks)) × (GoodMarks self.marks → GoodMarks result.marks) }
    {
        let none = Mark {
            bytes: [0; 5],
            len: 0,
        };
        self.with_comments(none, self.marks.end_comment)
    }

    // The quote marks are the default ones.
    pub(crate) fn with_default_quotes(self) -> Machine
        ensures { (result ≡ marks_set result.marks self) × (mark_texts result.marks ≡ with_quotes default_marks.begin_quote default_marks.end_quote (mark_texts self.marks)) × (GoodMarks self.marks → GoodMarks result.marks) }
    {
        let fresh = marks::default_marks();
        self.with_quotes(fresh.begin_quote, fresh.end_quote)
    }

    pub(crate) fn with_calls(mut self, calls: Calls) -> Machine
        ensures { result ≡ calls_set calls self }
    {
        self.calls = calls;
        self
    }

    pub(crate) fn with_table(mut self, table: Definitions) -> Machine
        ensures { result ≡ table_set table self }
    {
        self.table = table;
        self
    }

    pub(crate) fn with_sinks(mut self, sinks: Sinks) -> Machine
        ensures { result ≡ sinks_set sinks self }
    {
        self.sinks = sinks;
        self
    }

    pub(crate) fn with_wrap(mut self, wrap: usize) -> Machine
        ensures { result ≡ wrap_set wrap self }
    {
        self.wrap = wrap;
        self
    }

    pub(crate) fn with_errors(mut self, errors: usize) -> Machine
        ensures { result ≡ errors_set errors self }
    {
        self.errors = errors;
        self
    }

    // The run goes on from here.
    pub(crate) fn on(self) -> Stepped
        ensures { result ≡ stepped progress.On self }
    {
        Stepped {
            progress: Progress::On,
            machine: self,
        }
    }

    // The run ends here.
    pub(crate) fn ended(self, answer: Answer) -> Stepped
        ensures { result ≡ stepped (progress.Ended answer) self }
    {
        Stepped {
            progress: Progress::Ended(answer),
            machine: self,
        }
    }

    // The step is refused.
    pub(crate) fn refused(self, answer: Answer) -> Stepped
        ensures { result ≡ stepped (progress.Refused answer) self }
    {
        Stepped {
            progress: Progress::Refused(answer),
            machine: self,
        }
    }
}
