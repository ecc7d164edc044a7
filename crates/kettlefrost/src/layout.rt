// The layout of the records as one number, for a caller to hold its own against.
ghost use Rattle.std.specs.Prelude.{◌≡◌};
ghost use Rattle.kettlefrost.specs.Layout.{layout_number};

pub fn kf_layout() -> u64
    ensures { result ≡ layout_number }
{
    1_392_188_020_040_016_016
}
