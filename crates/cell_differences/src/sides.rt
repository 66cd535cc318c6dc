// Two sheets side by side, cell by cell in the order of the addresses.
ghost use Rattle.std.specs.Prelude.{ℕ, ◌≤◌, List};
ghost use Rattle.cell.specs.declared.Cell.{Cell};
ghost use Rattle.reading.specs.declared.Place.{Place};
ghost use Rattle.cell_differences.specs.Sides.{Findable, Found, Next};

use cell_addresses::Head;
use reading::Place;

// How the next cells of two sheets are found from an address on: that of the first, that of the second, and both where both had one at the same address.
// What a method asks is about the side that it goes on in: one struct of it would have to stand for either.
pub trait Sides {
    // the cells of the first sheet, and of the second
    ghost first_cells: { Self → List Cell };

    ghost second_cells: { Self → List Cell };

    // what a list tells from an address on is found from a place on
    ghost first_on: { Self → List Cell → Place → ℕ → Type 0 };

    ghost second_on: { Self → List Cell → Place → ℕ → Type 0 };

    // the streams of both, and the strings of both
    ghost compares: { Self → List ℕ → List ℕ → List (List ℕ) → List (List ℕ) → Type 0 };

    // what has to hold of both sheets
    ghost can_start: { Self → Type 0 };

    fn start(&self, k: u64) -> (Head, Head)
        requires { (k ≤ 4294967296) × can_start self.now }
        ensures { (s t : List ℕ) (p q : List (List ℕ)) → compares self.now s t p q → Next (first_on self.now) (second_on self.now) s t p q (first_cells self.now) (second_cells self.now) k result.0 result.1 };

    fn next_first(&self, place: Place, k: u64) -> Head
        requires { Findable (first_on self.now) place k }
        ensures { Found (first_on self.now) place k result };

    fn next_second(&self, place: Place, k: u64) -> Head
        requires { Findable (second_on self.now) place k }
        ensures { Found (second_on self.now) place k result };

    fn next_both(&self, first: Place, second: Place, k: u64) -> (Head, Head)
        requires { Findable (first_on self.now) first k × Findable (second_on self.now) second k }
        ensures { (s t : List ℕ) (p q : List (List ℕ)) → compares self.now s t p q → (l m : List Cell) → first_on self.now l first k → second_on self.now m second k → Next (first_on self.now) (second_on self.now) s t p q l m k result.0 result.1 };
}
