ghost use Rattle.std.specs.Prelude.{Some};
ghost use Rattle.keys.specs.RowText.{row_text};

use crate::rows::ListingRow;
use std::fmt;

// A row is written PRICE,SEATS,SELLER.
impl fmt::Display for ListingRow {
    ghost output = { λ r. Some (row_text r) };

    fn fmt<W: fmt::Write>(&self, f: &mut fmt::Formatter<W>) -> fmt::Result {
        let price = self.price;
        let seats = self.seats;
        let seller = self.seller;
        write!(f, "{price},{seats},{seller}")
    }
}
