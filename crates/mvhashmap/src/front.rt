// What the call runs, over the front of the answer slice: an array of as many words as the longest answer.
pub mod answer;
pub mod data;
pub mod group;
