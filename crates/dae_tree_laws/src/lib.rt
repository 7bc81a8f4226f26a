// Laws of trees of C that stand above the grammar. Each is the contract of a function that does nothing.
#![tactic(auto)]

ghost use Rattle.dae_tree_laws.specs.Named.{FilesHaveNames};

/// What a file declares and defines at file scope has names: no declarator there lacks its own. So the number of a name is
/// asked only where there is one.
pub fn files_have_names()
    ensures { FilesHaveNames }
{}
