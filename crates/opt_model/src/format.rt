ghost use Rattle.std.specs.Prelude.{◌≡◌};
ghost use Rattle.opt_model.specs.Settings.{has_baskets, has_lots};

/// Whether a format has baskets with needs of their own, which came with format 2.
pub fn has_baskets(format: u32) -> bool
    ensures { result ≡ has_baskets format }
{
    format >= 2
}

/// Whether a format has offers with a fee and a least lot, which came with format 3.
pub fn has_lots(format: u32) -> bool
    ensures { result ≡ has_lots format }
{
    format >= 3
}
