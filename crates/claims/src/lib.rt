// What is proved above single functions, held: each function here does nothing and promises theorems, so that the check
// of this crate needs the proof of every one. What is claimed is said in `specs/`; start with `Demand1.antt`,
// `Demand2.antt` and `Demand3.antt`.
//
// Which public functions are entry points is said in `Demand1.antt`.
#![tactic(auto)]

ghost use Rattle.claims.specs.Demand3.{Demand3};
ghost use Rattle.claims.specs.Demand1.{Demand1};
ghost use Rattle.claims.specs.Demand1C.{Demand1C};
ghost use Rattle.claims.specs.Orders.{Orders};
ghost use Rattle.claims.specs.Demand2.{Demand2};
ghost use Rattle.claims.specs.Worked.{lines, AllHold};
ghost use Rattle.claims.specs.Others.{Others};

// The owner's demand 1.
pub fn demand_1()
    ensures { Demand1 }
{}

// The owner's demand 1 for the calls from C.
pub fn demand_1_c()
    ensures { Demand1C }
{}

// The order of refusals.
pub fn orders()
    ensures { Orders }
{}

// The owner's demand 2.
pub fn demand_2()
    ensures { Demand2 }
{}

// The owner's demand 3.
pub fn demand_3()
    ensures { Demand3 }
{}

// The specification's worked lines that are marked P.
pub fn worked_lines()
    ensures { AllHold lines }
{}

// That the definitions mean what they are named after.
pub fn others()
    ensures { Others }
{}
