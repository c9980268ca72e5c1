// The texts of what a call answers.
ghost use Rattle.std.specs.Prelude.{Some};
ghost use Rattle.types.specs.Texts.{refusal_text, answer_text, permission_text};

use crate::{Answer, Permission, Refusal};
use std::fmt;

impl fmt::Display for Refusal {
    ghost output = { λ x. Some (refusal_text x) };

    fn fmt<W: fmt::Write>(&self, f: &mut fmt::Formatter<W>) -> fmt::Result {
        write!(f, "refused {}", u64::from(*self))
    }
}

impl fmt::Display for Answer {
    ghost output = { λ x. Some (answer_text x) };

    fn fmt<W: fmt::Write>(&self, f: &mut fmt::Formatter<W>) -> fmt::Result {
        match self {
            Answer::Allowed => write!(f, "allowed"),
            Answer::Fault(cause) => write!(f, "fault {}", u64::from(*cause)),
        }
    }
}

impl fmt::Display for Permission {
    ghost output = { λ x. Some (permission_text x) };

    fn fmt<W: fmt::Write>(&self, f: &mut fmt::Formatter<W>) -> fmt::Result {
        match self {
            Permission::None => write!(f, "none"),
            Permission::Rx => write!(f, "rx"),
            Permission::Rw => write!(f, "rw"),
            Permission::Rwx => write!(f, "rwx"),
        }
    }
}
