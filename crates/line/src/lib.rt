// One line of a script as a call ("01, The script and one whole run"): "One call a line, fields parted by one tab".
#![tactic(auto)]

ghost use Rattle.std.specs.Prelude.{◌≡◌, ◌∷◌, [], Some, None, MatchOption, IsSome};
ghost use Rattle.line.specs.Line.{word_of, verb_of, numbers_of, bodied, call_in, command_of, ill, take_number, take_body, left};

// The calls by name, and that a line is none: for every line there is a call (docs/DECISIONS.md, "An ill-formed line is a call that does
// nothing").
#[derive(Clone, Copy, PartialEq, Eq)]
pub enum Verb {
    Format,
    Open,
    Seal,
    Begin,
    Next,
    Insert,
    Update,
    Delete,
    Read,
    Commit,
    Withdraw,
    Sweep,
    IllFormed,
}

// A call as its line says it. What its line does not say is zero, as the definitions of a call have it.
#[derive(Drop)]
pub struct Command {
    pub verb: Verb,
    pub first: u64,
    pub second: u64,
    pub body: [u8; 32],
}

// The fields of a line that are still to be read: those of the text behind a tab; none where no tab was left.
#[derive(Drop)]
struct Fields<'a> {
    rest: Option<&'a [u8]>,
}

// "at most 128 bytes before it"
pub const LONGEST: usize = 128;

impl Verb {
    // The calls, in the order of the table.
    const ALL: [Verb; 12] = [
        Verb::Format,
        Verb::Open,
        Verb::Seal,
        Verb::Begin,
        Verb::Next,
        Verb::Insert,
        Verb::Update,
        Verb::Delete,
        Verb::Read,
        Verb::Commit,
        Verb::Withdraw,
        Verb::Sweep,
    ];

    // The name of a call, as a line writes it.
    #[tactic(auto, unfolding(crate::specs::Line::word_of))]
    fn word(self) -> &'static [u8]
        ensures { result.now ≡ word_of self }
    {
        match self {
            Verb::Format => b"format",
            Verb::Open => b"open",
            Verb::Seal => b"seal",
            Verb::Begin => b"begin",
            Verb::Next => b"next",
            Verb::Insert => b"insert",
            Verb::Update => b"update",
            Verb::Delete => b"delete",
            Verb::Read => b"read",
            Verb::Commit => b"commit",
            Verb::Withdraw => b"withdraw",
            Verb::Sweep => b"sweep",
            Verb::IllFormed => b"",
        }
    }

    // How many numbers stand behind it.
    fn numbers(self) -> usize
        ensures { result ≡ numbers_of self }
    {
        match self {
            Verb::Format | Verb::Update | Verb::Delete | Verb::Read | Verb::Sweep => 2,
            Verb::Next | Verb::Insert | Verb::Commit | Verb::Withdraw => 1,
            Verb::Open | Verb::Seal | Verb::Begin | Verb::IllFormed => 0,
        }
    }

    // Whether a body stands behind them.
    fn has_body(self) -> bool
        ensures { result ≡ bodied self }
    {
        matches!(self, Verb::Insert | Verb::Update)
    }
}

// The call that a name says.
fn verb_of(name: &[u8]) -> Verb
    ensures { result ≡ verb_of name.now }
{
    Verb::ALL
        .iter()
        .find(|verb| name == verb.word())
        .copied()
        .unwrap_or(Verb::IllFormed)
}

impl<'a> Fields<'a> {
    // The next field, up to a tab or the end of the line.
    fn next(&mut self) -> Option<&'a [u8]>
        ensures { MatchOption result (left self.old.rest ≡ []) (λ f. left self.old.rest ≡ f.now ∷ left self.new.rest) }
    {
        let rest = self.rest?;
        let end = lines::find(rest, 0, lines::TAB);
        let (field, behind) = rest.split_at(end);
        self.rest = behind.get(1..);
        Some(field)
    }

    // The next field as a number, where one is wanted; else zero.
    fn number(&mut self, wanted: bool) -> Option<u64>
        ensures { MatchOption result ((take_number wanted (left self.old.rest)).0 ≡ None) (λ n. take_number wanted (left self.old.rest) ≡ (Some n, left self.new.rest)) }
    {
        if !wanted {
            return Some(0);
        }
        numeral::read_number(self.next()?)
    }

    // The next field as a body, where one is wanted; else zeros.
    fn body(&mut self, wanted: bool) -> Option<[u8; 32]>
        ensures { MatchOption result ((take_body wanted (left self.old.rest)).0 ≡ None) (λ b. take_body wanted (left self.old.rest) ≡ (Some b, left self.new.rest)) }
    {
        if !wanted {
            return Some([0; 32]);
        }
        numeral::read_body(self.next()?)
    }

    // That no field is left.
    fn end(&self) -> Option<()>
        ensures { MatchOption result (IsSome self.now.rest) (λ _. self.now.rest ≡ None) }
    {
        match self.rest {
            None => Some(()),
            Some(_) => None,
        }
    }
}

// The call that a line says; none where it says none.
fn call_in(line: &[u8]) -> Option<Command>
    ensures { result ≡ call_in line.now }
{
    if line.len() > LONGEST {
        return None;
    }
    let mut fields = Fields { rest: Some(line) };
    let verb = verb_of(fields.next()?);
    let n = verb.numbers();
    let first = fields.number(n > 0)?;
    let second = fields.number(n > 1)?;
    let body = fields.body(verb.has_body())?;
    fields.end()?;
    Some(Command {
        verb,
        first,
        second,
        body,
    })
}

// What an ill-formed line says.
pub fn ill_formed() -> Command
    ensures { result ≡ ill }
{
    Command {
        verb: Verb::IllFormed,
        first: 0,
        second: 0,
        body: [0; 32],
    }
}

// The call that a line says, without its newline.
#[tactic(auto, unfolding(crate::specs::Line::command_of))]
pub fn read_command(line: &[u8]) -> Command
    ensures { result ≡ command_of line.now }
{
    call_in(line).unwrap_or(ill_formed())
}
