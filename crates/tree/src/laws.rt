// The laws of reading, printing and editing. Each function stands for the theorem in its contract, and does nothing.
ghost use Rattle.tree.specs.Laws.{AcceptedTextPrintsAsItself, PrintedTreeReadsAsItself, EqualPrintsHaveEqualTrees, FaultyTextIsNoPrint, CensusCountsTheTree, EditingBytesIsEditingTheTree, EditedTreeIsWellFormedWhereTheEditIsSound, NeighboursRunTogetherAtASeam, ItemStandsAtItsPlace, WholePathsLead};

pub fn accepted_text_prints_as_itself()
    ensures { AcceptedTextPrintsAsItself }
{}

pub fn printed_tree_reads_as_itself()
    ensures { PrintedTreeReadsAsItself }
{}

pub fn equal_prints_have_equal_trees()
    ensures { EqualPrintsHaveEqualTrees }
{}

pub fn faulty_text_is_no_print()
    ensures { FaultyTextIsNoPrint }
{}

pub fn census_counts_the_tree()
    ensures { CensusCountsTheTree }
{}

pub fn editing_bytes_is_editing_the_tree()
    ensures { EditingBytesIsEditingTheTree }
{}

pub fn edited_tree_is_well_formed_where_the_edit_is_sound()
    ensures { EditedTreeIsWellFormedWhereTheEditIsSound }
{}

pub fn neighbours_run_together_at_a_seam()
    ensures { NeighboursRunTogetherAtASeam }
{}

pub fn item_stands_at_its_place()
    ensures { ItemStandsAtItsPlace }
{}

pub fn whole_paths_lead()
    ensures { WholePathsLead }
{}
