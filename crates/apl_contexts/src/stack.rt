//! Looks down the contexts.
ghost use Rattle.std.specs.Prelude.{◌≡◌, [], IfNone, IfSome, drop, option_copied, option_map};
ghost use Rattle.apl_frames.specs.Ends.{IsColumn};
ghost use Rattle.apl_contexts.specs.Contexts.{AreStacked, Place, beneath, blamed, call_in, nearest, newest_of};
ghost use Rattle.apl_contexts.specs.Stacks.{contexts_of};

use crate::context::{Call, Context};

/// The contexts from one of them on.
#[derive(Clone, Copy)]
pub struct Stack<'a> {
    /// The oldest first.
    pub(crate) stand: &'a [Context],
}

impl<'a> Stack<'a> {
    /// The newest of them.
    pub fn newest(self) -> Option<&'a Context>
        ensures { option_copied result ≡ newest_of (contexts_of self.entry) }
    {
        self.stand.last()
    }

    /// Without the newest of them.
    fn older(self) -> Stack<'a>
        ensures { contexts_of result ≡ drop 1 (contexts_of self.entry) }
    {
        match self.stand.split_last() {
            Some((_newest, older)) => Stack { stand: older },
            None => self,
        }
    }

    /// From the nearest statement or call on, without the texts that it executes.
    pub fn nearest(self) -> Stack<'a>
        ensures { contexts_of result ≡ nearest (contexts_of self.entry) }
    {
        let mut rest = self;
        while let Some(Context::Execute(_)) = rest.newest() {
            rest = rest.older();
        }
        rest
    }

    /// Those beneath the nearest statement or call.
    #[tactic(auto, using(crate::proofs::Nearest::beneath_nearest))]
    pub fn beneath(self) -> Stack<'a>
        ensures { contexts_of result ≡ beneath (contexts_of self.entry) }
    {
        self.nearest().older()
    }

    /// The nearest statement or call, where it is a call.
    #[tactic(auto, using(crate::proofs::Nearest::call_nearest, crate::proofs::Nearest::never_execute))]
    pub fn call(self) -> Option<&'a Call>
        ensures { option_copied result ≡ call_in (contexts_of self.entry) }
    {
        match self.nearest().newest() {
            Some(Context::Call(call)) => Some(call),
            _ => None,
        }
    }

    /// Where a fault at a column of the newest of them is reported: in the nearest statement or
    /// call, at this column, and where that executes a text, at the column of its `⍎`. Without
    /// contexts, nowhere.
    #[tactic(auto, using(crate::proofs::Blamed::blames_one))]
    pub fn blamed(self, column: usize) -> Option<(&'a Context, usize)>
        requires stacked { (p : Place) × AreStacked p (contexts_of self) }
        requires column { IsColumn column }
        ensures value { option_map (λ r. (r.0.now, r.1)) result ≡ blamed column (contexts_of self.entry) }
        ensures column { IfSome result (λ r. IsColumn r.1) }
        ensures none { IfNone result (contexts_of self.entry ≡ []) }
    {
        let mut stack = self;
        let mut place = column;
        while let Some(Context::Execute(_)) = stack.newest() {
            stack = stack.older();
            let Some(context) = stack.newest() else {
                unreachable!()
            };
            let Some(line) = context.line() else {
                unreachable!()
            };
            place = line.awaited_at();
        }
        let Some(context) = stack.newest() else {
            return None;
        };
        Some((context, place))
    }
}
