// The values of a process: its state, its sends, and the number of the outside.
ghost use Rattle.std.specs.Prelude.{◌≡◌, ◌≤◌, Bool, length, filter};
ghost use Rattle.std.specs.Iterator.{YieldsFirst, item_count};
ghost use Rattle.std.specs.List.{slice_get};
ghost use Rattle.programs.specs.declared.values.Send.{Send};
ghost use Rattle.programs.specs.Values.{Answers, listed, passing, reaching, within};

// The four words of a process.
#[derive(Clone, Copy, PartialEq, Eq, Debug)]
pub struct State {
    pub a: u64,
    pub b: u64,
    pub c: u64,
    pub d: u64,
}

// A message to the process `target`.
#[derive(Clone, Copy, PartialEq, Eq, Debug)]
pub struct Send {
    pub target: u8,
    pub value: u64,
}

// What one step sends, in order.
#[derive(Clone, Copy, PartialEq, Eq, Debug)]
pub enum Sends {
    Nothing,
    One(Send),
    Two(Send, Send),
}

// The source of an input; sources below it are processes. No enum: the rules and the records number the sources.
pub const OUTSIDE: u8 = 8;

impl State {
    // Every process of ours starts so.
    pub const ZERO: State = State {
        a: 0,
        b: 0,
        c: 0,
        d: 0,
    };
}

impl Sends {
    // The sends that pass, in order.
    pub fn filter<F: Fn(&Send) -> bool + Drop>(self, passes: F) -> Sends
        requires { F.IsAlwaysCallable passes }
        ensures value { (p : Send → Bool) → Answers F.Fn passes p → result ≡ passing p self }
        ensures list { (p : Send → Bool) → Answers F.Fn passes p → listed result ≡ filter p (listed self) }
    {
        match self {
            Sends::Nothing => Sends::Nothing,
            Sends::One(m) if passes(&m) => Sends::One(m),
            Sends::One(_) => Sends::Nothing,
            Sends::Two(m, n) => match (passes(&m), passes(&n)) {
                (true, true) => Sends::Two(m, n),
                (true, false) => Sends::One(m),
                (false, true) => Sends::One(n),
                (false, false) => Sends::Nothing,
            },
        }
    }

    // What is left where only the processes below `count` exist: a send to any other is not made.
    pub fn within(self, count: u8) -> Sends
        ensures value { result ≡ within count self }
        ensures list { listed result ≡ reaching count (listed self) }
    {
        self.filter(|m| m.target < count)
    }

    pub fn len(self) -> usize
        ensures { result ≡ length (listed self) }
    {
        match self {
            Sends::Nothing => 0,
            Sends::One(_) => 1,
            Sends::Two(_, _) => 2,
        }
    }

    // The send that `index` others come before.
    pub fn get(self, index: usize) -> Option<Send>
        ensures value { result ≡ slice_get (listed self) index }
        ensures none { result ≡ None → length (listed self) ≤ index }
    {
        match (self, index) {
            (Sends::One(m) | Sends::Two(m, _), 0) | (Sends::Two(_, m), 1) => Some(m),
            _ => None,
        }
    }
}

// The sends that are still to come of those that one step makes.
#[derive(Clone, Copy, PartialEq, Eq, Debug)]
pub struct SendsIter {
    rest: Sends,
}

impl Iterator for SendsIter {
    type Item = Send;

    ghost next_gives = { YieldsFirst (λ s. listed s.rest) };

    ghost remaining = { item_count (λ s. listed s.rest) };

    fn next(&mut self) -> Option<Send> {
        let (first, rest) = match self.rest {
            Sends::Nothing => return None,
            Sends::One(m) => (m, Sends::Nothing),
            Sends::Two(m, n) => (m, Sends::One(n)),
        };
        self.rest = rest;
        Some(first)
    }
}

impl IntoIterator for Sends {
    type Item = Send;

    type IntoIter = SendsIter;

    ghost into_iter_gives = { λ sends iter. listed iter.rest ≡ listed sends };

    fn into_iter(self) -> SendsIter {
        SendsIter { rest: self }
    }
}
