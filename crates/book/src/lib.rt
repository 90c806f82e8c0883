#![tactic(auto)]

// The sixth call: the form of a book and the most specific cards. Definitions and theorems; the code is in book_form, book_tables, book_selection and most_specific.
