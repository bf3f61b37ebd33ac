// What every refusal has: its number in the table of refusals.
#![tactic(auto)]

ghost use Rattle.std.specs.Prelude.{◌≡◌, ℕ, ◌≤◌};

// Why a call changes nothing.
pub trait Refusal {
    // Its number in the table.
    ghost row: { Self → ℕ };

    // The number of the refusal.
    fn number(self) -> u8
        ensures { result ≡ row self };

    // The table has the numbers 1 to 19, so 0 is no refusal's.
    ghost in_table: { (r : Self) → (1 ≤ row r) × (row r ≤ 19) };
}
