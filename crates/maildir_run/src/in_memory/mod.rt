// The folder in memory: its files, its script, and what its calls do.
pub(crate) mod acting;
pub(crate) mod file_tree;
pub(crate) mod mem_files;
pub(crate) mod mem_folder;
pub(crate) mod modes;
pub(crate) mod script;
