// Smoothing by Loop's method: which triangles come of which, where positions move to, which meshes are refused, and why the verdict
// stays. There is no code here. specs/ has the rules, proofs/ why they keep what document 02 promises.
#![tactic(auto)]
