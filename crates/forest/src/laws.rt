// Laws of forests. Each function stands for the theorem in its contract, and does nothing.
ghost use Rattle.forest.specs.Laws.{LiveChainsKeepTheirTrees, AChainHasOneTree};

pub fn live_chains_keep_their_trees()
    ensures { LiveChainsKeepTheirTrees }
{}

pub fn a_chain_has_one_tree()
    ensures { AChainHasOneTree }
{}
