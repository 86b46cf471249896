// The worked figures, proved in one table about the definitions that every contract cites.
#![tactic(auto)]

ghost use Rattle.std.specs.Prelude.{◌≡◌, length};
ghost use Rattle.figures.specs.Figures.{table, FiguresHold};

fn table_holds()
    ensures { FiguresHold }
{}

// Every figure holds; answers how many there are.
pub fn figures_hold() -> u64
    ensures count { result ≡ length table }
    ensures hold { FiguresHold }
{
    table_holds();
    23
}
