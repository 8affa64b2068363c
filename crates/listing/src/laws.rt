// What is proved of listings.
ghost use Rattle.std.specs.Prelude.{ℕ, ◌≤◌, List, ◌++◌, length};
ghost use Rattle.layout.specs.Laws.{Bytes};
ghost use Rattle.listing.specs.Listed.{Listed, OneListing};

// Bytes have one listing; and 14,566 bytes or more have the same listing with more bytes behind them.
pub fn listings_stand()
    ensures one { (bs : List ℕ) → OneListing bs }
    ensures long { (bs more t : List ℕ) → Bytes (bs ++ more) → 14566 ≤ length bs → Listed bs t → Listed (bs ++ more) t }
{}
