// Laws of lines.
ghost use Rattle.apl_line_laws.specs.Codes.{HaveListings};
ghost use Rattle.apl_line_laws.specs.Labels.{DefinitionsHaveLabels, HaveOneLabels, TokensHaveLabels};
ghost use Rattle.apl_line_laws.specs.Statements.{statements};
ghost use Rattle.apl_line_laws.specs.Groups.{groups, index_lists};
ghost use Rattle.apl_line_laws.specs.Names.{variables, calls, selections};
ghost use Rattle.apl_line_laws.specs.Functions.{monadic, no_left_argument, left_argument, ends, monadic_with_axis, dyadic};
ghost use Rattle.apl_line_laws.specs.Operators.{reductions, inner_products, outer_products};
ghost use Rattle.apl_line_laws.specs.Ends.{before_closing_items, before_a_function};
ghost use Rattle.apl_line_laws.specs.Assignments.{assignments, branches, endings};

/// The law that worked lines have the codes whose listings are written beside them, operands, columns and endings
/// included, and no others: lines for each row of the table, and lines where a phrase doesn't begin because one of
/// its conditions fails.
pub fn worked_codes()
    ensures statements { HaveListings statements }
    ensures groups { HaveListings groups }
    ensures index_lists { HaveListings index_lists }
    ensures variables { HaveListings variables }
    ensures calls { HaveListings calls }
    ensures selections { HaveListings selections }
    ensures monadic { HaveListings monadic }
    ensures no_left_argument { HaveListings no_left_argument }
    ensures left_argument { HaveListings left_argument }
    ensures ends { HaveListings ends }
    ensures before_closing_items { HaveListings before_closing_items }
    ensures before_a_function { HaveListings before_a_function }
    ensures monadic_with_axis { HaveListings monadic_with_axis }
    ensures dyadic { HaveListings dyadic }
    ensures reductions { HaveListings reductions }
    ensures inner_products { HaveListings inner_products }
    ensures outer_products { HaveListings outer_products }
    ensures assignments { HaveListings assignments }
    ensures branches { HaveListings branches }
    ensures endings { HaveListings endings }
{
    // Nothing is done: the law is of the definitions.
}

/// The law that a line has a label exactly where its tokens begin with that name and a colon, and that a function's
/// labels are exactly those of its lines, each with the number of its line, in the order of the lines.
pub fn labels_of_lines()
    ensures tokens { TokensHaveLabels }
    ensures definitions { DefinitionsHaveLabels }
    ensures one { HaveOneLabels }
{}
