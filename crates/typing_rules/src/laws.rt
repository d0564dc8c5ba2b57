ghost use Rattle.vera_ast.specs.declared.tree.expressions.Expr.{Expr};
ghost use Rattle.typing_rules.specs.Expressions.{expr};
ghost use Rattle.typing_rules.specs.Laws.{Holds, HasItsType};
ghost use Rattle.typing_rules.specs.declared.context.Context.{Context};
ghost use Rattle.typing_rules.specs.Told.{AllTold, AllTyped};
ghost use Rattle.typing_rules.specs.TreeRows.{tree_rows};
ghost use Rattle.typing_rules.specs.AssignRows.{assign_rows};
ghost use Rattle.typing_rules.specs.CountRows.{count_rows};
ghost use Rattle.typing_rules.specs.GivenRows1.{given_rows_1};
ghost use Rattle.typing_rules.specs.GivenRows2.{given_rows_2};
ghost use Rattle.typing_rules.specs.LimitRows.{limit_rows};
ghost use Rattle.typing_rules.specs.NameRows.{name_rows};
ghost use Rattle.typing_rules.specs.OrderRows.{order_rows};
ghost use Rattle.typing_rules.specs.ProgramRows.{program_rows};
ghost use Rattle.typing_rules.specs.SignalRows.{signal_rows};
ghost use Rattle.typing_rules.specs.StandRows.{stand_rows};
ghost use Rattle.typing_rules.specs.TwiceRows.{twice_rows};
ghost use Rattle.typing_rules.specs.TypeRows1.{type_rows1};
ghost use Rattle.typing_rules.specs.TypeRows2.{type_rows2};
ghost use Rattle.typing_rules.specs.TypeRows3.{type_rows3};
ghost use Rattle.typing_rules.specs.TypeRows4.{type_rows4};
ghost use Rattle.typing_rules.specs.WorkedRows.{worked_rows};

/// Sources that are worked out by hand. What the walk tells of each is the row's answer.
pub fn worked_sources_are_told()
    ensures { AllTold worked_rows }
{}

/// Files without exactly one program. What the walk tells of each is the row's answer.
pub fn files_without_one_program_are_told()
    ensures { AllTold program_rows }
{}

/// Names that are unknown where they stand. What the walk tells of each is the row's answer.
pub fn unknown_names_are_told()
    ensures { AllTold name_rows }
{}

/// Names that are declared twice in one scope. What the walk tells of each is the row's answer.
pub fn names_declared_twice_are_told()
    ensures { AllTold twice_rows }
{}

/// Types that do not fit. What the walk tells of each is the row's answer.
pub fn wrong_types_are_told_1()
    ensures { AllTold type_rows1 }
{}

/// Types that do not fit. What the walk tells of each is the row's answer.
pub fn wrong_types_are_told_2()
    ensures { AllTold type_rows2 }
{}

/// Types that do not fit. What the walk tells of each is the row's answer.
pub fn wrong_types_are_told_3()
    ensures { AllTold type_rows3 }
{}

/// Types that do not fit. What the walk tells of each is the row's answer.
pub fn wrong_types_are_told_4()
    ensures { AllTold type_rows4 }
{}

/// Wrong numbers of arguments. What the walk tells of each is the row's answer.
pub fn wrong_counts_are_told()
    ensures { AllTold count_rows }
{}

/// What can and cannot be assigned. What the walk tells of each is the row's answer.
pub fn wrong_targets_are_told()
    ensures { AllTold assign_rows }
{}

/// What stands in functions, and where calls that may wait stand. What the walk tells of each is the row's answer.
pub fn wrong_stands_are_told()
    ensures { AllTold stand_rows }
{}

/// Signals and interfaces. What the walk tells of each is the row's answer.
pub fn wrong_signals_are_told()
    ensures { AllTold signal_rows }
{}

/// Limits. What the walk tells of each is the row's answer.
pub fn passed_limits_are_told()
    ensures { AllTold limit_rows }
{}

/// Two refusals in one source: the first of the walk is told. What the walk tells of each is the row's answer.
pub fn first_refusals_are_told()
    ensures { AllTold order_rows }
{}

/// Sources of whole runs. What the walk tells of each is the row's answer.
pub fn sources_of_runs_are_told()
    ensures { AllTold given_rows_1 }
{}

/// More sources of whole runs. What the walk tells of each is the row's answer.
pub fn more_sources_of_runs_are_told()
    ensures { AllTold given_rows_2 }
{}

/// Sources whose whole typed trees are worked out.
pub fn typed_trees_are_those()
    ensures { AllTyped tree_rows }
{}

/// The type that the walk gives an expression is that of the typed expression.
pub fn expressions_have_their_types()
    ensures { (c : Context) (x : Expr) → Holds HasItsType (expr c x) }
{}
