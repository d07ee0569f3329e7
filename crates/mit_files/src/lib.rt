//! Files: a folder's files and their names, the rows of a file, the text of a bag, and what writes publish. Definitions alone, by which
//! `mit_world` and `mit_shelf` go.
#![tactic(auto)]
