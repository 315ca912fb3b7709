//! Guards, each of which judges by a law.

ghost use Rattle.std.specs.Prelude.{◌≡◌};
ghost use Rattle.cl_mean.specs.Judging.{judge, is_idle};
ghost use Rattle.cl_mean.specs.declared.law.Law.{Law as LawValue};
ghost use Rattle.guard_rules.specs.Guards.{ceiling, veil};

use cl_mean::law::{Asked, Law, Patch, Ruling};
use std::marker::Model;

/// What judges the frames that cross between levels, by a law that may change as it judges.
pub trait Guard: Drop {
    // The law that it judges by.
    ghost law: { Self → LawValue };

    /// Judges the values of a request or of a reply, in place.
    fn inspect(&mut self, asked: Asked, values: &mut [i128]) -> Ruling
        ensures { judge (λ n. n) (law self.old) asked values.old ≡ record { ruling = result; law = law self.new; values = values.new } };

    /// Whether it lets everything pass as it is, from now on.
    fn idle(&self) -> bool
        ensures { result ≡ is_idle (law self.now) };
}

/// Lets so many requests pass, whatever they are, and blocks those behind them. Contracts see its law.
#[derive(Drop)]
pub struct Ceiling {
    left: u64,
}

impl Model for Ceiling {
    ghost use Rattle.cl_mean.specs.declared.law.Law.{Law};
    ghost use Rattle.guard_rules.specs.Guards.{ceiling};

    ghost Value = { Law };

    ghost view = { λ c. ceiling c.left };
}

impl Ceiling {
    pub fn new(left: u64) -> Ceiling
        ensures { result ≡ ceiling left }
    {
        Ceiling { left }
    }
}

impl Guard for Ceiling {
    ghost law = { λ c. c };

    #[tactic(auto, unfolding(cl_mean::specs::Judging::judge, cl_mean::specs::Judging::rules_judge, cl_mean::specs::Judging::act_on, cl_mean::specs::Judging::is_matched))]
    fn inspect(&mut self, asked: Asked, _values: &mut [i128]) -> Ruling {
        match (asked.reply, self.left) {
            (true, _) => Ruling::Pass,
            (false, 0) => Ruling::Block,
            (false, left) => {
                self.left = left - 1;
                Ruling::Pass
            }
        }
    }

    #[tactic(auto, unfolding(cl_mean::specs::Judging::is_idle, cl_mean::specs::Judging::is_idle_act))]
    fn idle(&self) -> bool {
        // Whatever is left of it, a quota may come to block.
        let _left = self.left;
        false
    }
}

/// Puts a number at a place of so many requests, or replies, of one call. Contracts see its law.
#[derive(Drop)]
pub struct Veil {
    asked: Asked,
    left: u64,
    patch: Patch,
}

impl Model for Veil {
    ghost use Rattle.cl_mean.specs.declared.law.Law.{Law};
    ghost use Rattle.guard_rules.specs.Guards.{veil};

    ghost Value = { Law };

    ghost view = { λ v. veil v.asked v.left v.patch };
}

impl Veil {
    pub fn new(asked: Asked, left: u64, patch: Patch) -> Veil
        ensures { result ≡ veil asked left patch }
    {
        Veil { asked, left, patch }
    }
}

impl Guard for Veil {
    ghost law = { λ v. v };

    #[tactic(auto, unfolding(cl_mean::specs::Judging::judge, cl_mean::specs::Judging::rules_judge, cl_mean::specs::Judging::act_on, cl_mean::specs::Judging::is_matched, cl_mean::specs::Judging::patched))]
    fn inspect(&mut self, asked: Asked, values: &mut [i128]) -> Ruling {
        if asked == self.asked && self.left > 0 {
            self.left -= 1;
            let at = self.patch.at as usize;
            if at < values.len() {
                values[at] = self.patch.with;
            }
        }
        Ruling::Pass
    }

    #[tactic(auto, unfolding(cl_mean::specs::Judging::is_idle, cl_mean::specs::Judging::is_idle_act))]
    fn idle(&self) -> bool {
        self.left == 0
    }
}

/// Judges by any law. Contracts see it.
#[derive(Drop)]
pub struct TableGuard {
    law: Law,
}

impl Model for TableGuard {
    ghost use Rattle.cl_mean.specs.declared.law.Law.{Law};

    ghost Value = { Law };

    ghost view = { λ t. t.law };
}

impl TableGuard {
    pub fn new(law: Law) -> TableGuard
        ensures { result ≡ law }
    {
        TableGuard { law }
    }
}

impl Guard for TableGuard {
    ghost law = { λ t. t };

    fn inspect(&mut self, asked: Asked, values: &mut [i128]) -> Ruling {
        self.law.judge(asked, values)
    }

    fn idle(&self) -> bool {
        self.law.idle()
    }
}
