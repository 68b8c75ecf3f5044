// The replies of the calls as C has them: structs of plain fields, and each reply put into its
// fields.
// A refusal is a number above 0 and a place; where there is none both are 0. What a reply does not
// have is 0.
#![tactic(auto)]

ghost use Rattle.std.specs.Prelude.{◌≡◌};
ghost use Rattle.c_api_fields.specs.Fields.{verdict_fields, in_force_fields, group_fields};
ghost use Rattle.c_api_fields.specs.Fields.{text_fields, write_fields, spread_fields};
ghost use Rattle.c_api_fields.specs.Fields.{funds_fields};

use book_contents::WriteReply;
use claims_variation::{SpreadReply, Variation};
use fund_definitions::FundsReply;
use text_reply::TextReply;
use valuation::GroupReply;
use verdict::Verdict;

// Of Check and Convert.
#[repr(C)]
#[derive(Clone, Copy)]
pub struct VerdictFields {
    pub refusal: u64,
    pub place: usize,
    pub n: u64,
}

impl From<Verdict> for VerdictFields {
    ghost from_gives = { λ v fields. fields ≡ verdict_fields v };

    fn from(v: Verdict) -> VerdictFields {
        match v {
            Ok(n) => VerdictFields {
                refusal: 0,
                place: 0,
                n,
            },
            Err(refusal) => VerdictFields {
                refusal: refusal.number,
                place: refusal.place,
                n: 0,
            },
        }
    }
}

// Of In force, whose figures are in the caller's buffer.
#[repr(C)]
#[derive(Clone, Copy)]
pub struct InForceFields {
    pub refusal: u64,
    pub place: usize,
}

impl From<Verdict> for InForceFields {
    ghost from_gives = { λ v fields. fields ≡ in_force_fields v };

    fn from(v: Verdict) -> InForceFields {
        match v {
            Ok(_) => InForceFields {
                refusal: 0,
                place: 0,
            },
            Err(refusal) => InForceFields {
                refusal: refusal.number,
                place: refusal.place,
            },
        }
    }
}

// Of both funds.
#[repr(C)]
#[derive(Clone, Copy)]
pub struct FundsFields {
    pub first: VerdictFields,
    pub second: VerdictFields,
}

impl From<FundsReply> for FundsFields {
    ghost from_gives = { λ reply fields. fields ≡ funds_fields reply };

    fn from(reply: FundsReply) -> FundsFields {
        let first = reply.first;
        let second = reply.second;
        FundsFields {
            first: VerdictFields::from(first),
            second: VerdictFields::from(second),
        }
    }
}

#[repr(C)]
#[derive(Clone, Copy)]
pub struct GroupFields {
    pub refusal: u64,
    pub place: usize,
    pub liability: i64,
    pub n: u64,
}

impl From<GroupReply> for GroupFields {
    ghost from_gives = { λ reply fields. fields ≡ group_fields reply };

    fn from(reply: GroupReply) -> GroupFields {
        match reply {
            Ok(valued) => GroupFields {
                refusal: 0,
                place: 0,
                liability: valued.liability,
                n: valued.n,
            },
            Err(refusal) => GroupFields {
                refusal: refusal.number,
                place: refusal.place,
                liability: 0,
                n: 0,
            },
        }
    }
}

// Of the calls that write a text, and of the one that gives its length.
#[repr(C)]
#[derive(Clone, Copy)]
pub struct ReportFields {
    pub refusal: u64,
    pub place: usize,
    pub length: usize,
}

impl From<TextReply> for ReportFields {
    ghost from_gives = { λ reply fields. fields ≡ text_fields reply };

    fn from(reply: TextReply) -> ReportFields {
        match reply {
            Ok(length) => ReportFields {
                refusal: 0,
                place: 0,
                length,
            },
            Err(refusal) => ReportFields {
                refusal: refusal.number,
                place: refusal.place,
                length: 0,
            },
        }
    }
}

// Of the calls that write a book.
#[repr(C)]
#[derive(Clone, Copy)]
pub struct WriteFields {
    pub refusal: u64,
    pub place: usize,
    pub length: usize,
}

impl From<WriteReply> for WriteFields {
    ghost from_gives = { λ reply fields. fields ≡ write_fields reply };

    fn from(reply: WriteReply) -> WriteFields {
        match reply {
            Ok(length) => WriteFields {
                refusal: 0,
                place: 0,
                length,
            },
            Err(refusal) => WriteFields {
                refusal: refusal.number,
                place: refusal.place,
                length: 0,
            },
        }
    }
}

// Level is 1 where the claims are level, else 0.
#[repr(C)]
#[derive(Clone, Copy)]
pub struct SpreadFields {
    pub refusal: u64,
    pub place: usize,
    pub level: u64,
    pub mean: f64,
    pub coefficient: f64,
}

impl From<SpreadReply> for SpreadFields {
    ghost from_gives = { λ reply fields. fields ≡ spread_fields reply };

    fn from(reply: SpreadReply) -> SpreadFields {
        match reply {
            Ok(Variation::Coefficient(mean, coefficient)) => SpreadFields {
                refusal: 0,
                place: 0,
                level: 0,
                mean,
                coefficient,
            },
            Ok(Variation::Level(mean)) => SpreadFields {
                refusal: 0,
                place: 0,
                level: 1,
                mean,
                coefficient: 0.0,
            },
            Err(refusal) => SpreadFields {
                refusal: refusal.number,
                place: refusal.place,
                level: 0,
                mean: 0.0,
                coefficient: 0.0,
            },
        }
    }
}
