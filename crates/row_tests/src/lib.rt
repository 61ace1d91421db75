// Tests of rows, tables, searches and lines on worked examples.
#![tactic(auto)]

#[cfg(test)]
mod building;
#[cfg(test)]
mod greatest_lines;
#[cfg(test)]
mod rows_alone;
#[cfg(test)]
mod searches;
