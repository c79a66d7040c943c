//! What is counted of one constraint.
use aggregate_propagators::{Amount, Threshold, gain_of, goal, threshold_of};
use ground_core::{AggCon, Part};
use kb_logic::AggKind;
use lit_core::{Assignment, Lit};

/// A look at a constraint.
#[derive(Clone, Copy)]
struct Look {
    /// So often was something taken back before it.
    time: u64,
    /// The end that the result asked for.
    end: i128,
}

/// The ends of what a constraint's parts can gain together, and what they have to reach.
///
/// A constraint says that `out` is true exactly where the gains reach the goal (`Totals` of aggregate_propagators); for
/// a minimum `out` is the negation of the constraint's result. The sums are taken modulo 2^128.
#[derive(Clone, Copy)]
pub struct Account {
    pub out: Lit,
    pub goal: Amount,
    /// The least that the parts can gain while no variable has a value.
    pub first_low: i128,
    /// The greatest.
    pub first_high: i128,
    /// The least that they can gain now.
    pub low: i128,
    /// The greatest.
    pub high: i128,
    /// The most by which the value of one part moves an end while the result has a value.
    pub most: i128,
    /// Whether each variable stands in the constraint once, but for a part that is for the result.
    pub is_plain: bool,
    /// Whether the result's variable stands in a part.
    pub is_shared: bool,
    /// Whether the constraint changed since it was asked.
    pub is_waiting: bool,
    /// The last look, if it found all that follows.
    seen: Option<Look>,
}

/// A constraint whose result stands in one of its parts, and that has more parts than this, is asked only once it is
/// contradicted. It says that a function has one value: each value that it excludes is held as a clause of its own,
/// where a search that decides the value costs next to nothing.
const MOST_LOOKED_AHEAD: usize = 256;

/// By how much the least end and the greatest end rise where a part that gains so much gets the value.
pub fn moves(gain: i64, value: bool) -> (i128, i128) {
    let gain = i128::from(gain);
    let least = gain.min(0);
    let greatest = gain.max(0);
    if value {
        (greatest, least)
    } else {
        (0i128.wrapping_sub(least), 0i128.wrapping_sub(greatest))
    }
}

/// Whether the gains reach the goal.
fn is_met(goal: Amount, gains: i128) -> bool {
    match goal {
        Amount::NegInf => true,
        Amount::Num(goal) => goal <= gains,
        Amount::PosInf => false,
    }
}

/// The literal's value; none where the assignment does not have its variable.
fn value_of(values: &Assignment, lit: Lit) -> Option<bool> {
    if lit.var.0 < values.len() as u64 {
        values.value(lit)
    } else {
        None
    }
}

/// Whether the part's variable is the result's, and the part is for the result: the value that makes the result true
/// gives the greatest gain.
fn is_for(threshold: Threshold, part: &Part) -> bool {
    let gain = gain_of(threshold.kind, threshold.least, part.weight);
    let out = out_of(threshold);
    part.lit.var.0 == out.var.0 && (gain >= 0) == (part.lit.positive == out.positive)
}

/// Whether the parts' variables rise, and the result's is at most in one that is for it.
fn are_apart(threshold: Threshold, parts: &[Part]) -> bool {
    let mut last = 0;
    for part in parts {
        let var = part.lit.var.0;
        if var <= last || (var == threshold.out.var.0 && !is_for(threshold, part)) {
            return false;
        }
        last = var;
    }
    true
}

/// The literal that is true exactly where the gains reach the goal.
fn out_of(threshold: Threshold) -> Lit {
    match threshold.kind {
        AggKind::Min => threshold.out.negated(),
        AggKind::Count | AggKind::Sum | AggKind::Max => threshold.out,
    }
}

impl Account {
    /// The account of a constraint of whose variables none has a value.
    pub fn of(sum: &AggCon) -> Account {
        let threshold = threshold_of(sum);
        let mut account = Account {
            out: out_of(threshold),
            goal: goal(threshold.kind, threshold.least),
            first_low: 0,
            first_high: 0,
            low: 0,
            high: 0,
            most: 0,
            is_plain: are_apart(threshold, sum.parts.as_slice()),
            is_shared: false,
            is_waiting: true,
            seen: None,
        };
        for part in sum.parts.as_slice() {
            let gain = gain_of(threshold.kind, threshold.least, part.weight);
            account.add_part(gain, part.lit.var != threshold.out.var);
        }
        if account.is_shared && sum.parts.len() > MOST_LOOKED_AHEAD {
            account.most = 0;
        }
        account.begin();
        account
    }

    /// Takes back all values.
    pub fn begin(&mut self) {
        self.low = self.first_low;
        self.high = self.first_high;
        self.seen = None;
    }

    /// Counts one more part, which has no value. Where its variable is the result's, the part has one whenever the
    /// result does, and moves no end then.
    fn add_part(&mut self, gain: i64, is_other: bool) {
        let gain = i128::from(gain);
        self.first_low = self.first_low.wrapping_add(gain.min(0));
        self.first_high = self.first_high.wrapping_add(gain.max(0));
        if is_other {
            self.most = self.most.max(gain.max(0i128.wrapping_sub(gain)));
        } else {
            self.is_shared = true;
        }
    }

    /// Notes that a part that gains so much got the value.
    pub fn count(&mut self, gain: i64, value: bool) {
        let (low, high) = moves(gain, value);
        self.low = self.low.wrapping_add(low);
        self.high = self.high.wrapping_add(high);
    }

    /// Notes that it has the value no more.
    pub fn take_back(&mut self, gain: i64, value: bool) {
        let (low, high) = moves(gain, value);
        self.low = self.low.wrapping_sub(low);
        self.high = self.high.wrapping_sub(high);
    }

    /// The end that the result asks for, where it has a value.
    fn asked_end(&self, values: &Assignment) -> Option<i128> {
        match value_of(values, self.out) {
            Some(true) => Some(self.high),
            Some(false) => Some(self.low),
            None => None,
        }
    }

    /// Notes that a look found all that follows, where that is so: where the variables stand once and the result has a
    /// value.
    pub fn note_look(&mut self, values: &Assignment, time: u64) {
        self.seen = None;
        if self.is_plain {
            if let Some(end) = self.asked_end(values) {
                self.seen = Some(Look { time, end });
            }
        }
    }

    /// Whether all that follows was found before: nothing was taken back since, and no value moved the end that the
    /// result asks for. So are those that the constraint itself implied.
    pub fn is_seen(&self, values: &Assignment, time: u64) -> bool {
        match (self.seen, self.asked_end(values)) {
            (Some(look), Some(end)) => look.time == time && look.end == end,
            _ => false,
        }
    }

    /// Whether the value of one variable more may contradict the constraint.
    pub fn is_tight(&self, values: &Assignment) -> bool {
        if !self.is_plain {
            return true;
        }
        match value_of(values, self.out) {
            Some(true) => !is_met(self.goal, self.high.wrapping_sub(self.most)),
            Some(false) => is_met(self.goal, self.low.wrapping_add(self.most)),
            None => is_met(self.goal, self.low) || !is_met(self.goal, self.high),
        }
    }
}
