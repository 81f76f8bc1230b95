// A file that was cleaned: cleaned again it is the same bytes, and its sheet is the sheet of the file it came from (document 02, CR 10: 'they
// compare files'). There is no code here. In specs/, Promises.antt says it of the rules and for which files it holds, Calls.antt of the calls
// that `meshclean` and `meshsheet` make, and Longer.antt shows why a file can have a sheet that its cleaned file has not.
#![tactic(auto)]
