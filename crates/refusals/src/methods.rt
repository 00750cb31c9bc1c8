// Designs with their settings.
ghost use Rattle.std.specs.Prelude.{◌≡◌};
ghost use Rattle.designs.specs.Products.{design_of};
ghost use Rattle.refusals.specs.Methods.{meant};

// A design with the setting that it takes, once a call's numbers have been judged.
#[derive(Clone, Copy, Debug, PartialEq, Eq)]
pub enum Method {
    Mitchell,
    Nearest,
    Staged { stages: u32 },
    Truncated { kept_bits: u32 },
    TwiceTruncated { kept_bits: u32 },
}

// The design of a number that has been judged, with a setting that has been too. The numbers are those of docs/SCOPE.md, and go no further.
pub(crate) fn method_of(design: u32, setting: u32) -> Method
    ensures { meant result ≡ design_of design setting }
{
    match design {
        1 => Method::Mitchell,
        2 => Method::Nearest,
        3 => Method::Staged { stages: setting },
        4 => Method::Truncated { kept_bits: setting },
        _ => Method::TwiceTruncated { kept_bits: setting },
    }
}
